// Counting in logs.
ghost use Rattle.std.specs.Prelude.{◌≡◌, ◌≤◌, ◌<◌, ◌+◌, ◌^◌, ◌++◌, ℕ, List, Some, IsTrue, IfSome, OnSome, length, slice_get, if◌then◌else◌};
ghost use Rattle.zb_model.specs.declared.record.Batch.{Batch as Record};
ghost use Rattle.zb_model.specs.declared.record.Event.{Event as Happening};
ghost use Rattle.zb_views.specs.View.{events_in};
ghost use Rattle.zb_views.specs.Messages.{is_buffered};
ghost use Rattle.zb_rules.specs.Applies.{holds_of_game, has_cell};
ghost use Rattle.zb_store.specs.GateLog.{disk_of_log, count_of, HasClosedFrames, IsSameLog};
ghost use Rattle.zb_partition.specs.Log.{StandsFor, bodies_of, AreBatches};
ghost use Rattle.zb_state.specs.State.{partition_of, IsStateOf};
ghost use Rattle.zb_tally.specs.Counts.{cells_there, messages_there, tally_of_log, tally_from, tally_with};
ghost use Rattle.zb_tally.specs.Served.{AreLogsOf};

use crate::tally::Tally;
use std::alloc::Global;
use zb_disk::Disk;
use zb_model::{Batch, Event, Key, Outcome, PartitionId};
use zb_show::read_batch;
use zb_state::State;
use zb_store::{GateLog, Volume, one_reading};
use zb_values::phase_of;
use zb_world::partition_at;

// The most bytes that a log may be opened with. None are added here.
const READ_LIMIT: u64 = 4_294_967_296;

/// What is counted in the logs of these volumes, of the partitions from 1 on; `None` where memory was wanting. It reads
/// each log once.
pub fn count_all<D: Disk + Drop>(alloc: Global, mut volumes: Vec<Volume<D>>) -> Option<Tally>
    requires { length volumes.items ≤ 16 }
    ensures { IsTrue D.tells → (logs : List (List Record)) → AreLogsOf D.Disk volumes.items logs
        → IfSome result (λ tally. tally ≡ tally_from 1 logs) }
{
    let mut tally = Tally::none();
    for index in 0..volumes.len() {
        let Volume { log, .. } = volumes.remove(0);
        let counted = count_log(alloc, partition_at(index), log)?;
        tally = tally.joined(counted)?;
    }
    Some(tally)
}

// What is counted in the log of this partition.
fn count_log<D: Disk + Drop>(alloc: Global, place: PartitionId, disk: D) -> Option<Tally>
    ensures { IsTrue D.tells → (all : List Record)
        → StandsFor (D.view disk).contents all → AreBatches all
        → IfSome result (λ tally. tally ≡ tally_of_log place all) }
{
    let mut log = open_log(alloc, disk)?;
    let mut state = State::empty(alloc, place);
    let mut tally = Tally::none();
    let mut body = Vec::new(alloc);
    for i in 0..log.count() {
        tally = match count_frame(alloc, i, &mut log, &mut body, &mut state, tally) {
            Some(counted) => counted,
            None => {
                drop(state);
                return None;
            }
        };
    }
    let counted = count_keys(place, &state, tally);
    drop(state);
    Some(counted)
}

// The log on this disk, which isn't cut off; `None` where memory was wanting.
fn open_log<D: Disk + Drop>(alloc: Global, disk: D) -> Option<GateLog<D>>
    ensures { IsTrue D.tells → (all : List Record) → StandsFor (D.view disk).contents all
        → IfSome result (λ log. HasClosedFrames (D.view (disk_of_log log)).contents log (bodies_of all)) }
{
    one_reading();
    let Ok(log) = GateLog::open(alloc, disk, READ_LIMIT) else {
        return None;
    };
    if log.whole() { Some(log) } else { None }
}

// What is counted with the batch in one frame more, which the state takes in.
fn count_frame<D: Disk>(
    alloc: Global,
    i: u64,
    log: &mut GateLog<D>,
    body: &mut Vec<u8>,
    state: &mut State,
    tally: Tally,
) -> Option<Tally>
    requires { i < count_of log.old }
    ensures counted { IsTrue D.tells → (all : List Record)
        → HasClosedFrames (D.view (disk_of_log log.old)).contents log.old (bodies_of all) → AreBatches all
        → (es : List Happening) → IsStateOf es state.old
        → IfSome result (λ more. (batch : Record) × (slice_get all i ≡ Some batch) × (more ≡ tally_with batch tally)
        × IsStateOf (es ++ events_in batch.outcome) state.new) }
    ensures kept { IsTrue D.tells → (bodies : List (List ℕ)) → HasClosedFrames (D.view (disk_of_log log.old)).contents log.old bodies
        → HasClosedFrames (D.view (disk_of_log log.new)).contents log.new bodies }
    ensures same { IsSameLog log.old log.new }
    ensures place { partition_of state.new ≡ partition_of state.old }
{
    match read_batch(alloc, i, log, body) {
        Ok(batch) => {
            let counted = count_batch(alloc, &batch, state, tally);
            batch.discard();
            counted
        }
        Err(_) => None,
    }
}

// What is counted with one batch more, which the state takes in.
fn count_batch(alloc: Global, batch: &Batch, state: &mut State, tally: Tally) -> Option<Tally>
    ensures place { partition_of state.new ≡ partition_of state.old }
    ensures state { (es : List Happening) → IsStateOf es state.old → OnSome result (IsStateOf (es ++ events_in batch.now.outcome) state.new) }
    ensures counted { IfSome result (λ more. more ≡ tally_with batch.now tally) }
{
    let mut more = tally;
    more.batches = more.batches.checked_add(1)?;
    match &batch.outcome {
        Outcome::Rejected(_) => {
            more.rejected = more.rejected.checked_add(1)?;
            Some(more)
        }
        Outcome::Accepted(events) => {
            let events = events.as_slice();
            more.accepted = more.accepted.checked_add(1)?;
            more.events = more.events.checked_add(events.len() as u64)?;
            take_in(alloc, events, state)?;
            Some(more)
        }
    }
}

// The state takes these events in.
fn take_in(alloc: Global, events: &[Event], state: &mut State) -> Option<()>
    ensures place { partition_of state.new ≡ partition_of state.old }
    ensures state { (es : List Happening) → IsStateOf es state.old → OnSome result (IsStateOf (es ++ events.now) state.new) }
{
    for event in events {
        match state.apply(alloc, event) {
            Ok(()) => {}
            Err(_) => return None,
        }
    }
    Some(())
}

// What is counted with the cells and the messages that are there at the end.
fn count_keys(place: PartitionId, state: &State, tally: Tally) -> Tally
    requires { partition_of state.now ≡ place }
    ensures cells { (es : List Happening) → IsStateOf es state.now → result.cells ≡ cells_there place es }
    ensures messages { (es : List Happening) → IsStateOf es state.now → result.messages ≡ messages_there place es }
    ensures batches { result.batches ≡ tally.batches }
    ensures accepted { result.accepted ≡ tally.accepted }
    ensures rejected { result.rejected ≡ tally.rejected }
    ensures events { result.events ≡ tally.events }
{
    let mut cells: u64 = 0;
    let mut messages: u64 = 0;
    for number in Key::make(place, 1).number()..state.next_key().number() {
        let key = Key::new(number);
        cells = one_more_if(has_cell(key, state), cells);
        messages = one_more_if(has_message(key, state), messages);
    }
    Tally {
        cells,
        messages,
        ..tally
    }
}

// Whether a cell has this key.
fn has_cell(key: Key, state: &State) -> bool
    ensures { (es : List Happening) → IsStateOf es state.now → result ≡ holds_of_game (has_cell key) es }
{
    phase_of(state.game(), key).is_some()
}

// Whether a message with this key is buffered.
fn has_message(key: Key, state: &State) -> bool
    ensures { (es : List Happening) → IsStateOf es state.now → result ≡ is_buffered key es }
{
    state.messages().deadline_of(key).is_some()
}

// One more, if so.
fn one_more_if(so: bool, count: u64) -> u64
    requires { count + 1 < 2 ^ 64 }
    ensures { result ≡ (if so then count + 1 else count) }
{
    if so { count + 1 } else { count }
}
