ghost use Rattle.std.specs.Prelude.{◌≡◌, ◌<◌, ◌≤◌, ◌^◌, ◌↔◌, length, map, IsTrue, IfOk, IfErr, string_bytes};
ghost use Rattle.zb_outside.specs.Clock.{HasGoneOn};
ghost use Rattle.zb_words.specs.Plan.{IsPlan};
ghost use Rattle.zb_words.specs.declared.plan.ClockKind.TheVariants as kinds;
ghost use Rattle.zb_words.specs.declared.plan.Plan.TheVariants as plans;
ghost use Rattle.zb_words.specs.declared.plan.ServePlan.{ServePlan};
ghost use Rattle.zb_words.specs.declared.fault.PlanFault.TheVariants as faults;
ghost use Rattle.zb_serve.specs.Words.{IsPlanned, words_cause_of};
ghost use Rattle.zb_serve.specs.Ends.{devices_of};
ghost use Rattle.zb_serve.specs.Cause.{status_of};
ghost use Rattle.zb_serve.specs.Closing.{Closes, clock_at_hand};

use crate::run::{Cause, Closed};
use crate::running::{Ran, serve_by};
use std::alloc::Global;
use std::sync::Wait;
use std::thread::Threads;
use zb_disk::Disk;
use zb_outside::{Clock, Door, Sink, Source};
use zb_session::Session;
use zb_store::Volume;
use zb_words::{Plan, PlanFault, ServePlan, plan_of};

/// Serves sessions over volumes by the words of a command line, and hands everything back with why
/// it ended. It takes one step for each byte of the lines, four calls of a disk for each batch, and
/// for each batch of a tick the logarithm of how much waits. So far one session can be served, over
/// a volume for each partition, and this thread does all of it: see `serve_alone`.
pub fn serve<R, S, K, D, C, G>(
    rt: &R,
    alloc: Global,
    words: &[String],
    sessions: Vec<Session<S, K>>,
    volumes: Vec<Volume<D>>,
    clock: &mut C,
    door: &G,
) -> Closed<S, K, D>
where
    R: Threads + Wait + Sync,
    S: Source,
    K: Sink,
    D: Disk,
    C: Clock,
    G: Door,
    requires { length sessions.items < 2 ^ 32 }
    ensures closed { Closes (devices_of S.Source K.Sink D.Disk)
        (clock_at_hand C.tells (C.upcoming clock.old)) (map string_bytes words.now)
        sessions.items volumes.items result }

    // The clock is read under a plan that goes by it alone, and not where the words can't be
    // served.
    ensures unasked { result.cause ≡ Cause.Usage → clock.new ≡ clock.old }
    ensures untouched { (plan : ServePlan) → IsPlan (map string_bytes words.now) (plans.Serve plan)
        → plan.clock ≡ kinds.Manual → clock.new ≡ clock.old }
    ensures readings { HasGoneOn (C.upcoming clock.old) (C.upcoming clock.new) }
{
    let _ = rt;
    let _ = door;
    serve_alone(alloc, words, sessions, volumes, clock)
}

/// Serves sessions over volumes in this thread, as `serve` does, and waits for nobody.
pub fn serve_alone<S: Source, K: Sink, D: Disk, C: Clock>(
    alloc: Global,
    words: &[String],
    mut sessions: Vec<Session<S, K>>,
    volumes: Vec<Volume<D>>,
    clock: &mut C,
) -> Closed<S, K, D>
    requires { length sessions.items < 2 ^ 32 }
    ensures closed { Closes (devices_of S.Source K.Sink D.Disk)
        (clock_at_hand C.tells (C.upcoming clock.old)) (map string_bytes words.now)
        sessions.items volumes.items result }

    // The clock is read under a plan that goes by it alone, and not where the words can't be
    // served.
    ensures unasked { result.cause ≡ Cause.Usage → clock.new ≡ clock.old }
    ensures untouched { (plan : ServePlan) → IsPlan (map string_bytes words.now) (plans.Serve plan)
        → plan.clock ≡ kinds.Manual → clock.new ≡ clock.old }
    ensures readings { HasGoneOn (C.upcoming clock.old) (C.upcoming clock.new) }
{
    let plan = match plan_for(alloc, words, sessions.len(), volumes.len()) {
        Ok(plan) => plan,
        Err(fault) => return closed(cause_of(fault), Vec::new(alloc), 0, sessions, volumes),
    };
    let Ran {
        cause,
        volumes,
        stamps,
        units,
    } = serve_by(alloc, &plan, &mut sessions[0], volumes, clock);
    closed(cause, stamps, units, sessions, volumes)
}

/// The plan of these words, where so many sessions and volumes can be served by it.
pub fn plan_for(
    alloc: Global,
    words: &[String],
    sessions: usize,
    volumes: usize,
) -> Result<ServePlan, PlanFault>
    ensures planned { IfOk result (IsPlanned (map string_bytes words.now) sessions volumes) }
    ensures unplanned { IfErr result (λ fault. fault ≡ faults.Usage → (plan : ServePlan)
        → IsPlanned (map string_bytes words.now) sessions volumes plan → ⊥) }
    ensures limit { IfOk result (λ plan. plan.limit ≤ 2 ^ 32) }
    ensures some { IfOk result (λ plan. 1 ≤ plan.partitions) }
    ensures few { IfOk result (λ plan. plan.partitions ≤ 16) }
{
    match plan_of(alloc, words) {
        Ok(Plan::Serve(plan)) => if can_serve(&plan, sessions, volumes) {
            Ok(plan)
        } else {
            Err(PlanFault::Usage)
        },
        Ok(Plan::Log(_) | Plan::Gen(_)) => Err(PlanFault::Usage),
        Err(fault) => Err(fault),
    }
}

// Whether so many sessions and volumes can be served by a plan.
fn can_serve(plan: &ServePlan, sessions: usize, volumes: usize) -> bool
    ensures { IsTrue result
        ↔ (sessions ≡ 1) × (volumes ≡ plan.now.partitions) × (length plan.now.files ≤ 2) }
{
    sessions == 1 && volumes == plan.partitions as usize && plan.files.as_slice().len() <= 2
}

// Why a run ends whose words weren't read as a plan.
fn cause_of(fault: PlanFault) -> Cause
    ensures { result ≡ words_cause_of fault }
{
    match fault {
        PlanFault::Usage => Cause::Usage,
        PlanFault::Memory => Cause::Memory,
    }
}

// The end of a run, with its status.
fn closed<S, K, D>(
    cause: Cause,
    stamps: Vec<Vec<u64>>,
    units: u64,
    sessions: Vec<Session<S, K>>,
    volumes: Vec<Volume<D>>,
) -> Closed<S, K, D>
    ensures status { result.status ≡ status_of cause }
    ensures cause { result.cause ≡ cause }
    ensures stamps { result.stamps ≡ stamps }
    ensures sessions { result.sessions ≡ sessions }
    ensures volumes { result.volumes ≡ volumes }
    ensures units { result.units ≡ units }
{
    let status = status(&cause);
    Closed {
        status,
        cause,
        sessions,
        volumes,
        stamps,
        units,
    }
}

// The exit status of a cause.
fn status(cause: &Cause) -> u8
    ensures { result ≡ status_of cause.now }
{
    match cause {
        Cause::Done => 0,
        Cause::Usage => 2,
        Cause::SourceFault { .. } => 3,
        Cause::DiskFault { .. } => 4,
        Cause::BadLog { .. } => 5,
        Cause::SinkFault { .. } => 6,
        Cause::Memory => 7,
        Cause::LogFull { .. } => 8,
        Cause::InputFull { .. } => 9,
    }
}
