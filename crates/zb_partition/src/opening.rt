// Reading a log from its first frame on.
ghost use Rattle.std.specs.Prelude.{◌≡◌, ◌++◌, ◌∷◌, ℕ, List, [], IsTrue, IsFalse, IfErr, IfOk, OnOk, IsErrOf, not, false, ◌<◌, ◌^◌};
ghost use Rattle.zb_model.specs.declared.record.Batch.{Batch};
ghost use Rattle.zb_model.specs.Record.{bytes_of};
ghost use Rattle.zb_model.specs.declared.record.Event.{Event};
ghost use Rattle.zb_model.specs.Layouts as layouts;
ghost use Rattle.zb_model.specs.Upshots.{events_at};
ghost use Rattle.zb_store.specs.Calls.{OnlyReads};
ghost use Rattle.zb_store.specs.Scan.{disk_of_scan, limit_of_scan, gate_of_scan, is_over, is_closed};
ghost use Rattle.zb_rules.specs.Applies.{applies};
ghost use Rattle.zb_state.specs.State.{partition_of, IsStateOf};
ghost use Rattle.zb_partition.specs.Log.{IsBadBody, IsBadAt};
ghost use Rattle.zb_partition.specs.Reading.{IsKnown, IsAtStart, IsRead, IsReadOn, IsTaken, AreTaken, IsRefused, AreRefused};
ghost use Rattle.zb_partition.specs.Fault.{IsDiskCause};

use crate::fault::OpenFault;
use std::alloc::{AllocError, Global};
use zb_disk::Disk;
use zb_format::{Cursor, Format, ReadFault};
use zb_model::{Batch, Event, Moment, PartitionId, TableFault};
use zb_state::{Facts, State};
use zb_store::{Found, Scan};

/// What is known of a log as far as it was read.
#[derive(Drop)]
pub struct Known {
    pub state: Facts,
    /// The moment of the last batch, or 0.
    pub last_moment: Moment,
}

/// Reads the frames of a log, one after the other, as they are found, and lists what they come to once at the end: the
/// state, and the moment of the last batch, or 0. It costs what `Facts::take_in` does for each event, and what `State::of`
/// does.
pub fn read_state<D: Disk>(
    alloc: Global,
    scan: &mut Scan<D>,
    place: PartitionId,
) -> Result<(State, Moment), OpenFault>
    requires { IsAtStart (D.view (disk_of_scan scan.old)).contents scan.old }
    ensures read { IfOk result (λ opened. (log : List Batch)
        × IsReadOn place (D.view (disk_of_scan scan.new)).contents scan.new log
        (record { state = opened.0; last_moment = opened.1 }) false) }
    ensures over { OnOk result (IsTrue (is_over scan.new)) }
    ensures closed { OnOk result (IsTrue (is_closed scan.new)) }
    ensures bad { IsTrue D.tells → (n : ℕ) → IsErrOf result (OpenFault.BadLog n)
        → IsBadAt place (D.view (disk_of_scan scan.old)).contents n }
    ensures limit { limit_of_scan scan.new ≡ limit_of_scan scan.old }
    ensures reads { OnlyReads D.Disk (disk_of_scan scan.old) (disk_of_scan scan.new) }
    ensures steady { IsTrue D.counts_failures
        → OnOk result ((D.view (disk_of_scan scan.new)).faults
        ≡ (D.view (disk_of_scan scan.old)).faults) }
    ensures cause { IfErr result
        (IsDiskCause D.counts_failures (D.view (disk_of_scan scan.old)).faults
        (D.view (disk_of_scan scan.new)).faults) }
{
    match read_frames(alloc, scan, place) {
        Ok(known) => listed(alloc, known),
        Err(fault) => Err(fault),
    }
}

// What is known of a log, listed.
fn listed(alloc: Global, known: Known) -> Result<(State, Moment), OpenFault>
    ensures known { IfOk result
        (λ opened. known ≡ record { state = opened.0; last_moment = opened.1 }) }
    ensures refused { IfErr result (λ fault. fault ≡ OpenFault.Memory) }
{
    let Known { state, last_moment } = known;
    match State::of(alloc, state) {
        Ok(state) => Ok((state, last_moment)),
        Err(AllocError) => Err(OpenFault::Memory),
    }
}

// Reads the frames of a log, one after the other, as they are found.
fn read_frames<D: Disk>(
    alloc: Global,
    scan: &mut Scan<D>,
    place: PartitionId,
) -> Result<Known, OpenFault>
    requires { IsAtStart (D.view (disk_of_scan scan.old)).contents scan.old }
    ensures read { IfOk result (λ known. (log : List Batch)
        × IsReadOn place (D.view (disk_of_scan scan.new)).contents scan.new log known false) }
    ensures over { OnOk result (IsTrue (is_over scan.new)) }
    ensures closed { OnOk result (IsTrue (is_closed scan.new)) }
    ensures bad { IsTrue D.tells → (n : ℕ) → IsErrOf result (OpenFault.BadLog n)
        → IsBadAt place (D.view (disk_of_scan scan.old)).contents n }
    ensures limit { limit_of_scan scan.new ≡ limit_of_scan scan.old }
    ensures reads { OnlyReads D.Disk (disk_of_scan scan.old) (disk_of_scan scan.new) }
    ensures steady { IsTrue D.counts_failures
        → OnOk result ((D.view (disk_of_scan scan.new)).faults
        ≡ (D.view (disk_of_scan scan.old)).faults) }
    ensures cause { IfErr result
        (IsDiskCause D.counts_failures (D.view (disk_of_scan scan.old)).faults
        (D.view (disk_of_scan scan.new)).faults) }
{
    let mut known = Known {
        state: Facts::empty(alloc, place),
        last_moment: Moment::new(0),
    };
    loop {
        match read_next(alloc, scan, &mut known) {
            Ok(true) => {}
            Ok(false) => return Ok(known),
            Err(fault) => {
                drop(known);
                return Err(fault);
            }
        }
    }
}

// Takes in the batch of the next frame: false where there are no more frames.
fn read_next<D: Disk>(
    alloc: Global,
    scan: &mut Scan<D>,
    known: &mut Known,
) -> Result<bool, OpenFault>
    requires { IsFalse (is_over scan.old) }
    ensures read { (p : ℕ) (log : List Batch)
        → IsRead p (D.view (disk_of_scan scan.old)).contents scan.old log known.old
        → IfOk result
        (IsReadOn p (D.view (disk_of_scan scan.new)).contents scan.new log known.new) }
    ensures bad { IsTrue D.tells → (p : ℕ) (log : List Batch) (n : ℕ)
        → IsRead p (D.view (disk_of_scan scan.old)).contents scan.old log known.old
        → IsErrOf result (OpenFault.BadLog n)
        → IsBadAt p (D.view (disk_of_scan scan.old)).contents n }
    ensures over { IfOk result (λ more. is_over scan.new ≡ not more) }
    ensures closed { IfOk result (λ more. is_closed scan.new ≡ not more) }
    ensures behind { IfOk result (λ more. IsTrue more
        → gate_of_scan scan.old < gate_of_scan scan.new) }
    ensures small { gate_of_scan scan.new < 2 ^ 58 }
    ensures limit { limit_of_scan scan.new ≡ limit_of_scan scan.old }
    ensures reads { OnlyReads D.Disk (disk_of_scan scan.old) (disk_of_scan scan.new) }
    ensures steady { IsTrue D.counts_failures
        → OnOk result ((D.view (disk_of_scan scan.new)).faults
        ≡ (D.view (disk_of_scan scan.old)).faults) }
    ensures cause { IfErr result
        (IsDiskCause D.counts_failures (D.view (disk_of_scan scan.old)).faults
        (D.view (disk_of_scan scan.new)).faults) }
{
    let frame = scan.count();
    match scan.advance()? {
        Found::Frame => match read_body(alloc, scan.body(), frame, known) {
            Ok(()) => Ok(true),
            Err(fault) => Err(fault),
        },
        Found::End => Ok(false),
        Found::Cut => Err(OpenFault::BadLog { frame }),
    }
}

// Takes in the batch that the body of this frame spells.
fn read_body(alloc: Global, body: &[u8], frame: u64, known: &mut Known) -> Result<(), OpenFault>
    ensures read { (p : ℕ) (log : List Batch) → IsKnown p log known.old
        → OnOk result ((batch : Batch) × (body.now ≡ bytes_of batch)
        × IsKnown p (log ++ batch ∷ []) known.new) }
    ensures bad { (p : ℕ) (log : List Batch) (n : ℕ) → IsKnown p log known.old
        → IsErrOf result (OpenFault.BadLog n) → (n ≡ frame) × IsBadBody p log body.now }
    ensures silent { ¬ (IsErrOf result OpenFault.DiskFault) }
{
    match take_body(alloc, body, known)? {
        true => Ok(()),
        false => Err(OpenFault::BadLog { frame }),
    }
}

// Takes in the batch that this body spells, event by event: whether it spells one whose events apply. Where it
// doesn't, or memory is wanting, what is known is only dropped.
fn take_body(alloc: Global, body: &[u8], known: &mut Known) -> Result<bool, AllocError>
    ensures taken { (p : ℕ) (log : List Batch) → IsKnown p log known.old
        → IfOk result (λ taken. IsTrue taken → (batch : Batch) × (body.now ≡ bytes_of batch)
        × IsKnown p (log ++ batch ∷ []) known.new) }
    ensures bad { (p : ℕ) (log : List Batch) → IsKnown p log known.old
        → IfOk result (λ taken. IsFalse taken → IsBadBody p log body.now) }
{
    let mut cursor = Cursor::new(body);
    match zb_model::read_heading(alloc, &mut cursor) {
        Ok(heading) => {
            known.last_moment = heading.moment;
            take_events(alloc, heading.events, &mut cursor, &mut known.state)
        }
        Err(ReadFault::NotSpelled) => Ok(false),
        Err(ReadFault::Memory) => Err(AllocError),
    }
}

// Takes in so many events, which are all that is left: whether they are there, alone, and apply.
fn take_events(
    alloc: Global,
    count: u32,
    cursor: &mut Cursor<'_>,
    state: &mut Facts,
) -> Result<bool, AllocError>
    ensures place { partition_of state.new ≡ partition_of state.old }
    ensures taken { (es : List Event) → IsStateOf es state.old → IfOk result (λ taken. IsTrue taken
        → AreTaken (partition_of state.old) es (events_at count cursor.old) state.new) }
    ensures bad { (es : List Event) → IsStateOf es state.old → IfOk result (λ taken. IsFalse taken
        → AreRefused (partition_of state.old) es (events_at count cursor.old)) }
{
    for _ in 0..count {
        match take_event(alloc, cursor, state) {
            Ok(true) => {}
            Ok(false) => return Ok(false),
            Err(refusal) => return Err(refusal),
        }
    }
    Ok(cursor.is_at_end())
}

// Takes in the event that comes next: whether there is one, and it applies.
fn take_event(alloc: Global, cursor: &mut Cursor<'_>, state: &mut Facts) -> Result<bool, AllocError>
    ensures place { partition_of state.new ≡ partition_of state.old }
    ensures taken { (es : List Event) → IsStateOf es state.old → IfOk result (λ taken. IsTrue taken
        → IsTaken (partition_of state.old) es (layouts.event.reading cursor.old) cursor.new
        state.new) }
    ensures bad { (es : List Event) → IsStateOf es state.old → IfOk result (λ taken. IsFalse taken
        → IsRefused (partition_of state.old) es (layouts.event.reading cursor.old)) }
{
    match Event::read(alloc, cursor) {
        Ok(event) => take_in(alloc, event, state),
        Err(ReadFault::NotSpelled) => Ok(false),
        Err(ReadFault::Memory) => Err(AllocError),
    }
}

// Takes in an event: whether it applies.
fn take_in(alloc: Global, event: Event, state: &mut Facts) -> Result<bool, AllocError>
    ensures place { partition_of state.new ≡ partition_of state.old }
    ensures taken { (es : List Event) → IsStateOf es state.old → IfOk result (λ taken. IsTrue taken
        → IsTrue (applies (partition_of state.old) es event)
        × IsStateOf (es ++ event ∷ []) state.new) }
    ensures bad { (es : List Event) → IsStateOf es state.old → IfOk result (λ taken. IsFalse taken
        → IsFalse (applies (partition_of state.old) es event)) }
{
    match state.take_in(alloc, event) {
        Ok(()) => Ok(true),
        Err(TableFault::NotApplicable) => Ok(false),
        Err(TableFault::Memory) => Err(AllocError),
    }
}
