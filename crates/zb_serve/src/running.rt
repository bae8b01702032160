ghost use Rattle.std.specs.Prelude.{◌≡◌, ◌≤◌, ◌^◌, List, [], None, Option, Result, map, length};
ghost use Rattle.std.specs.Prelude.{IsTrue, IsFalse, is_some, vec_capacity};
ghost use Rattle.std.specs.List.{AllZip};
ghost use Rattle.zb_outside.specs.Clock.{HasGoneOn};
ghost use Rattle.zb_words.specs.declared.plan.ClockKind.TheVariants as kinds;
ghost use Rattle.zb_session.specs.Hours.{Hours};
ghost use Rattle.zb_wire.specs.declared.request.Request.{Request as Asked};
ghost use Rattle.zb_wire.specs.declared.request.LineFault.{LineFault};
ghost use Rattle.zb_world.specs.declared.entry.Entry.{Entry};
ghost use Rattle.zb_session.specs.Session.{session_ends, streams_of, CutsOff, LeavesDesk};
ghost use Rattle.zb_session.specs.Serving.{AreAt, began_of, clocks_of, service_of, IsOver};
ghost use Rattle.zb_engine.specs.Solo.{Start, basis_in, many_in, HasMade, partitions_in, stamps_in, kept_in};
ghost use Rattle.zb_serve.specs.Setting.{setting_of};
ghost use Rattle.zb_serve.specs.Ends.{all_told, volumes_ends, crashes_of, IsSafe};
ghost use Rattle.zb_serve.specs.Served.{answer_of_run, IsRun};
ghost use Rattle.zb_serve.specs.Slots.{AreAllSlotsLeft};
ghost use Rattle.zb_serve.specs.Opening.{volumes_in, IsBegunOver};
ghost use Rattle.zb_serve.specs.WorkOff.{facts_in, behind_of, IsWorkedOff};
ghost use Rattle.zb_serve.specs.Running.{ends_alone, files_of, first_writing, cause_of, is_cut};
ghost use Rattle.zb_serve.specs.Running.{stop_cause_of, failed_at, is_by_hand};
ghost use Rattle.zb_model.specs.declared.record.Batch.{Batch as Record};

use crate::closing::close_all;
use crate::opening::open_engine;
use crate::run::{Cause, SESSION};
use std::alloc::Global;
use zb_disk::Disk;
use zb_engine::Solo;
use zb_model::{Batch, PartitionId, Stop};
use zb_outside::{Clock, Sink, Source};
use zb_session::{Dial, End, Session, serve_session};
use zb_store::Volume;
use zb_words::{ClockKind, ServePlan};

/// How a run of one session ended.
#[derive(Drop)]
pub struct Ran<D> {
    pub cause: Cause,
    /// The files of each partition.
    pub volumes: Vec<Volume<D>>,
    /// The stamps of each log. Empty where one could not be opened.
    pub stamps: Vec<Vec<u64>>,
    /// How many units of work were done behind the last line.
    pub units: u64,
}

/// Serves one session over the partitions of these volumes by a plan, as `serve_alone` does by words, and hands the
/// volumes back with why it ended. What the run is is said as there.
/// There are 1 to 16 volumes, and a log may have at most 2^32 bytes.
pub fn serve_by<S: Source, K: Sink, D: Disk, C: Clock>(
    alloc: Global,
    plan: &ServePlan,
    session: &mut Session<S, K>,
    volumes: Vec<Volume<D>>,
    clock: &mut C,
) -> Ran<D>
    requires limit { plan.now.limit ≤ 2 ^ 32 }
    requires some { 1 ≤ length volumes.items }
    requires few { length volumes.items ≤ 16 }
    ensures unread { result.stamps.items ≡ [] → session.new ≡ session.old }
    ensures same { length result.volumes.items ≡ length volumes.items }
    ensures slots { AreAllSlotsLeft volumes.items result.volumes.items }
    ensures spared { result.stamps.items ≡ [] → IsTrue D.tells_images
        → AllZip (IsSafe D.Disk) volumes.items result.volumes.items }
    ensures run { IsRun
        (all_told S.tells S.counts_failures K.Sink D.Disk)
        (setting_of plan.now C.tells (C.upcoming clock.old))
        (ends_alone
        (session_ends (S.view session.old.source) (S.view session.new.source)
        (K.view session.old.sink) (K.view session.new.sink))
        (volumes_ends D.Disk volumes.items result.volumes.items))
        (crashes_of D.Disk volumes.items result.volumes.items)
        (answer_of_run result.cause (map (λ list. list.items) result.stamps.items) result.units) }
    ensures untouched { plan.now.clock ≡ kinds.Manual → clock.new ≡ clock.old }
    ensures readings { HasGoneOn (C.upcoming clock.old) (C.upcoming clock.new) }
{
    match open_engine(alloc, volumes, plan.limit, plan.units) {
        Ok((solo, room)) => serve_engine(alloc, plan, session, solo, room, clock),
        Err((cause, volumes)) => Ran {
            cause,
            volumes,
            stamps: Vec::new(alloc),
            units: 0,
        },
    }
}

// Runs one session over an engine that was made, with room for the volumes of its partitions.
fn serve_engine<S: Source, K: Sink, D: Disk, C: Clock>(
    alloc: Global,
    plan: &ServePlan,
    session: &mut Session<S, K>,
    mut solo: Solo<D>,
    room: Vec<Volume<D>>,
    clock: &mut C,
) -> Ran<D>
    requires goes_on { kept_in solo ≡ None }
    requires room { length (partitions_in solo) ≤ vec_capacity room }
    requires none { room.items ≡ [] }
    ensures some { ¬ (result.stamps.items ≡ []) }

    // However it may have begun.
    ensures same { (start : Start D) → HasMade start [] solo
        → length result.volumes.items ≡ many_in start }
    ensures slots { (start : Start D) → HasMade start [] solo
        → AreAllSlotsLeft (volumes_in start) result.volumes.items }
    ensures run { (start : Start D) (volumes : List (Volume D)) → HasMade start [] solo
        → IsBegunOver D.Disk plan.now.limit plan.now.units volumes start → IsRun
        (all_told S.tells S.counts_failures K.Sink D.Disk)
        (setting_of plan.now C.tells (C.upcoming clock.old))
        (ends_alone
        (session_ends (S.view session.old.source) (S.view session.new.source)
        (K.view session.old.sink) (K.view session.new.sink))
        (volumes_ends D.Disk volumes result.volumes.items))
        (crashes_of D.Disk volumes result.volumes.items)
        (answer_of_run result.cause (map (λ list. list.items) result.stamps.items) result.units) }
    ensures untouched { plan.now.clock ≡ kinds.Manual → clock.new ≡ clock.old }
    ensures readings { HasGoneOn (C.upcoming clock.old) (C.upcoming clock.new) }
{
    let mut dial = Dial::new(goes_by_hand(plan.clock));
    let end = serve_solo(alloc, session, &mut solo, &mut dial, clock);
    let (end, units) = work_off(alloc, end, &mut solo, &dial, clock);
    close_run(end, units, solo, room)
}

// Closes the engine of a run whose one session ended so.
fn close_run<D: Disk>(end: End, units: u64, solo: Solo<D>, room: Vec<Volume<D>>) -> Ran<D>
    requires none { room.items ≡ [] }
    requires room { length (partitions_in solo) ≤ vec_capacity room }
    ensures cause { result.cause
        ≡ cause_of (first_writing (partitions_in solo)) (kept_in solo) end }
    ensures volumes { result.volumes.items ≡ map files_of (partitions_in solo) }
    ensures stamps { map (λ list. list.items) result.stamps.items ≡ stamps_in solo }
    ensures units { result.units ≡ units }
{
    let stop = solo.stop();
    let (partitions, stamps) = solo.close();
    let (volumes, in_writing) = close_all(partitions, room);
    Ran {
        cause: cause(end, stop, in_writing),
        volumes,
        stamps,
        units,
    }
}

// Does the units of work behind the last line, where nothing cut the run off, and tells how the run
// ended by then, and how many they were.
fn work_off<D: Disk, C: Clock>(
    alloc: Global,
    end: End,
    solo: &mut Solo<D>,
    dial: &Dial,
    clock: &mut C,
) -> (End, u64)
    requires { IsFalse (is_cut end) → kept_in solo.old ≡ None }
    ensures worked { (start : Start D) (hours : Hours) (found : List (Result Asked LineFault))
        (entries : List Entry) (unlogged : Option Entry)
        → LeavesDesk (facts_in start solo.old) entries unlogged end
        → (IsFalse (is_cut end)
        → AreAt hours found (clocks_of dial.now C.tells (C.upcoming clock.old)))
        → IsWorkedOff (basis_in start) (behind_of hours found entries unlogged end)
        (facts_in start solo.new) result }
    ensures many { length (partitions_in solo.new) ≡ length (partitions_in solo.old) }
    ensures readings { HasGoneOn (C.upcoming clock.old) (C.upcoming clock.new) }
    ensures untouched { (IsFalse (is_cut end) → IsTrue (is_some dial.now)) → clock.new ≡ clock.old }
{
    if is_cut(end) {
        return (end, 0);
    }
    let reading = dial.read(clock);
    match solo.deliver(alloc, reading) {
        Ok(units) => (end, units),
        Err(_) => (End::Stopped, 0),
    }
}

// Whether a line was cut off.
fn is_cut(end: End) -> bool
    ensures { result ≡ is_cut end }
{
    matches!(end, End::Memory | End::Stopped)
}

// Serves the lines of a session by the engine of one thread, in words of that engine.
fn serve_solo<S: Source, K: Sink, D: Disk, C: Clock>(
    alloc: Global,
    session: &mut Session<S, K>,
    solo: &mut Solo<D>,
    dial: &mut Dial,
    clock: &mut C,
) -> End
    requires { kept_in solo.old ≡ None }
    ensures over { (start : Start D) (hours : Hours) → HasMade start [] solo.old
        → AreAt hours [] (clocks_of dial.old C.tells (C.upcoming clock.old))
        → IsOver (streams_of S.tells S.counts_failures K.Sink)
        (began_of hours (basis_in start) (S.view session.old.source) (K.view session.old.sink))
        (S.view session.new.source)
        (service_of (K.view session.new.sink) (clocks_of dial.new C.tells (C.upcoming clock.new))
        (facts_in start solo.new)) result }
    ensures uncut { (CutsOff result → ⊥) → kept_in solo.new ≡ None }
    ensures many { length (partitions_in solo.new) ≡ length (partitions_in solo.old) }
    ensures kind { is_some dial.new ≡ is_some dial.old }
    ensures readings { HasGoneOn (C.upcoming clock.old) (C.upcoming clock.new) }
    ensures untouched { IsTrue (is_some dial.old) → clock.new ≡ clock.old }
{
    serve_session(alloc, session, solo, dial, clock)
}

// Whether a run goes by a clock that is moved by hand.
fn goes_by_hand(clock: ClockKind) -> bool
    ensures { result ≡ is_by_hand clock }
{
    match clock {
        ClockKind::Manual => true,
        ClockKind::Real => false,
    }
}

// Why a run ends whose one session ended so, with the stop of a partition, if there was one, and
// the batch that was in writing.
fn cause(end: End, stop: Option<(PartitionId, Stop)>, in_writing: Option<Batch>) -> Cause
    ensures { result ≡ cause_of in_writing stop end }
{
    match failed_at(end, &stop) {
        Some(partition) => Cause::DiskFault {
            partition,
            in_writing,
        },
        None => {
            Batch::discard_any(in_writing);
            other_cause(end, stop)
        }
    }
}

// The partition whose disk failed, where that ended the run.
fn failed_at(end: End, stop: &Option<(PartitionId, Stop)>) -> Option<u32>
    ensures { result ≡ failed_at end stop.now }
{
    match end {
        End::Stopped => match stop {
            Some((partition, Stop::DiskFault)) => Some(partition.number()),
            _ => None,
        },
        _ => None,
    }
}

// Why a run ends where no disk failed.
fn other_cause(end: End, stop: Option<(PartitionId, Stop)>) -> Cause
    ensures { failed_at end stop ≡ None → (in_writing : Option Record)
        → result ≡ cause_of in_writing stop end }
{
    match end {
        End::Done => Cause::Done,
        End::SourceFault => Cause::SourceFault { session: SESSION },
        End::SinkFault => Cause::SinkFault { session: SESSION },
        End::InputFull => Cause::InputFull { session: SESSION },
        End::Memory => Cause::Memory,
        End::Stopped => full_at(stop),
    }
}

// Why a run ends whose partition stopped, where its disk didn't fail.
fn full_at(stop: Option<(PartitionId, Stop)>) -> Cause
    ensures { failed_at End.Stopped stop ≡ None → (in_writing : Option Record)
        → result ≡ stop_cause_of in_writing stop }
{
    let Some((partition, stop)) = stop else {
        return Cause::Memory;
    };
    let partition = partition.number();
    match stop {
        Stop::LogFull {
            length,
            frame,
            limit,
        } => Cause::LogFull {
            partition,
            length,
            frame,
            limit,
        },
        Stop::DiskFault | Stop::Memory => Cause::Memory,
    }
}
