ghost use Rattle.std.specs.Prelude.{◌≡◌, ◌≢◌, ◌⊎◌, ◌≤◌, ℕ, List, [], ◌∷◌, Contains, IsTrue, IfOk, IfErr, OnOk, map, string_bytes};
ghost use Rattle.zb_disk.specs.Cause.{Rose};
ghost use Rattle.zb_model.specs.declared.record.Batch.{Batch};
ghost use Rattle.zb_outside.specs.Cause.{StreamFaultsRose};
ghost use Rattle.zb_partition.specs.Log.{StandsFor, AreBatches, IsBadAt};
ghost use Rattle.zb_store.specs.Calls.{OnlyOpens};
ghost use Rattle.zb_words.specs.Plan.{IsPlan};
ghost use Rattle.zb_words.specs.declared.plan.LogPlan.{LogPlan};
ghost use Rattle.zb_words.specs.declared.plan.Plan.TheVariants as plans;
ghost use Rattle.zb_show.specs.Lines.{log_lines};
ghost use Rattle.zb_show.specs.Show.{Writes, ShowsLog, PrintsLog, FindsBad};
ghost use Rattle.zb_show.specs.Status.{status_shown, IsBadLog, IsShowCause};
ghost use Rattle.zb_show.specs.declared.fault.ShowFault.TheVariants as faults;

use crate::fault::{ShowFault, status};
use crate::printing::print_log;
use std::alloc::Global;
use zb_disk::Disk;
use zb_model::{Batch, PartitionId};
use zb_outside::Sink;
use zb_partition::{OpenFault, Partition, Stopped};
use zb_store::{GateLog, Volume, one_reading};
use zb_words::{LogPlan, Plan, PlanFault, plan_of};

// The most bytes that a log may be opened with. None are added here.
const LIMIT: u64 = 4_294_967_296;

/// What is left when a log was shown.
#[derive(Drop)]
pub struct Shown<D, K> {
    /// 0 where it was shown, 2 where the words ask for no log, 4 where its disk failed, 5 where it can't be read,
    /// 6 where the sink failed, and 7 where memory was wanting.
    pub status: u8,
    /// What came of it, which the status tells in a number.
    pub end: Result<(), ShowFault>,
    pub volume: Volume<D>,
    pub sink: K,
}

/// Shows the log of a partition by the words of a command line: a line for each record. Nothing is written where
/// the log can't be opened. It reads the log twice, the first time with the state that its events come to.
pub fn show_log<D: Disk, K: Sink>(
    alloc: Global,
    words: &[String],
    volume: Volume<D>,
    sink: K,
) -> Shown<D, K>
    ensures known { Contains (0 ∷ 2 ∷ 4 ∷ 5 ∷ 6 ∷ 7 ∷ []) result.status }
    ensures end { result.status ≡ status_shown result.end }

    // 2 exactly where the words ask for no log. Nothing is touched then, nor where there was no memory to read them.
    ensures usage { result.status ≡ 2 → (plan : LogPlan) → IsPlan (map string_bytes words.now) (plans.Log plan) → ⊥ }
    ensures untouched { result.status ≡ 2 → (result.volume ≡ volume) × (result.sink ≡ sink) }
    ensures planned { result.status ≢ 2 → ((result.status ≡ 7) × (result.volume ≡ volume) × (result.sink ≡ sink))
        ⊎ ((plan : LogPlan) × IsPlan (map string_bytes words.now) (plans.Log plan)) }

    // Nothing is written where the log could not be opened. Of one that was a front of its lines is, and all of them at 0.
    ensures opened { IsTrue D.tells → ((result.sink ≡ sink) × Contains (2 ∷ 4 ∷ 5 ∷ 7 ∷ []) result.status)
        ⊎ (Contains (0 ∷ 4 ∷ 6 ∷ 7 ∷ []) result.status × ((left : List ℕ)
        × ShowsLog K.tells (map string_bytes words.now) (D.view volume.log).contents (K.view sink).written (K.view result.sink).written left)) }
    ensures shown { IsTrue D.tells → result.status ≡ 0
        → ShowsLog K.tells (map string_bytes words.now) (D.view volume.log).contents (K.view sink).written (K.view result.sink).written [] }
    ensures disk { result.status ≡ 4 → Rose (D.view volume.log).faults (D.view result.volume.log).faults }
    ensures bad { IsTrue D.tells → result.status ≡ 5 → FindsBad (map string_bytes words.now) (D.view volume.log).contents }
    ensures sink { result.status ≡ 6 → StreamFaultsRose (K.view sink).faults (K.view result.sink).faults }

    // No log is put at risk: what a crash leaves is what one before might have left, or an opening.
    ensures opens { OnlyOpens D.Disk volume.log result.volume.log }
    ensures slots { (result.volume.snap_a ≡ volume.snap_a) × (result.volume.snap_b ≡ volume.snap_b) }
{
    let plan = match log_plan(alloc, words) {
        Ok(plan) => plan,
        Err(fault) => return ended(Err(fault), volume, sink),
    };
    let place = PartitionId::new(plan.partition);
    let (shown, volume, sink) = show_volume(alloc, place, plan.partitions, volume, sink);
    ended(shown, volume, sink)
}

// Opens the log of this partition, of so many, prints it, and hands back what it was handed.
fn show_volume<D: Disk, K: Sink>(
    alloc: Global,
    place: PartitionId,
    partitions: u32,
    volume: Volume<D>,
    mut sink: K,
) -> (Result<(), ShowFault>, Volume<D>, K)
    requires { partitions ≤ 16 }
    ensures opened { IsTrue D.tells → ((result.2 ≡ sink) × Contains (2 ∷ 4 ∷ 5 ∷ 7 ∷ []) (status_shown result.0))
        ⊎ (Contains (0 ∷ 4 ∷ 6 ∷ 7 ∷ []) (status_shown result.0) × ((left : List ℕ)
        × PrintsLog K.tells place (D.view volume.log).contents (K.view sink).written (K.view result.2).written left × OnOk result.0 (left ≡ []))) }
    ensures bad { IsTrue D.tells → IfErr result.0 (λ fault. IsBadLog fault → (frame : ℕ) × IsBadAt place (D.view volume.log).contents frame) }
    ensures cause { IfErr result.0 (IsShowCause (D.view volume.log).faults (D.view result.1.log).faults (K.view sink).faults (K.view result.2).faults) }
    ensures opens { OnlyOpens D.Disk volume.log result.1.log }
    ensures slots { (result.1.snap_a ≡ volume.snap_a) × (result.1.snap_b ≡ volume.snap_b) }
{
    let partition = match Partition::open(alloc, volume, place, partitions, LIMIT) {
        Ok(partition) => partition,
        Err((fault, volume)) => return (Err(ShowFault::Log(fault)), volume, sink),
    };
    let Stopped { volume, in_writing } = partition.stopped();
    Batch::discard_any(in_writing);
    let Volume {
        log,
        snap_a,
        snap_b,
    } = volume;
    let (shown, log) = show(alloc, place, log, &mut sink);
    let volume = Volume {
        log,
        snap_a,
        snap_b,
    };
    (shown, volume, sink)
}

// The plan of a log that the words ask for.
fn log_plan(alloc: Global, words: &[String]) -> Result<LogPlan, ShowFault>
    ensures planned { IfOk result (λ plan. IsPlan (map string_bytes words.now) (plans.Log plan)) }
    ensures within { IfOk result (λ plan. (1 ≤ plan.partition) × (plan.partition ≤ 16) × (plan.partitions ≤ 16)) }
    ensures fault { IfErr result (λ fault. (fault ≡ faults.Memory) ⊎ ((fault ≡ faults.Usage) × ((plan : LogPlan) → IsPlan (map string_bytes words.now) (plans.Log plan) → ⊥))) }
{
    match plan_of(alloc, words) {
        Ok(Plan::Log(plan)) => Ok(plan),
        Ok(Plan::Serve(_)) => Err(ShowFault::Usage),
        Ok(Plan::Gen(_)) => Err(ShowFault::Usage),
        Err(PlanFault::Usage) => Err(ShowFault::Usage),
        Err(PlanFault::Memory) => Err(ShowFault::Memory),
    }
}

// Prints the log on this disk, and hands the disk back.
fn show<D: Disk, K: Sink>(
    alloc: Global,
    place: PartitionId,
    disk: D,
    sink: &mut K,
) -> (Result<(), ShowFault>, D)
    ensures shown { IsTrue D.tells → IsTrue K.tells → (all : List Batch)
        → StandsFor (D.view disk).contents all → AreBatches all
        → Writes result.0 (log_lines place all) (K.view sink.old).written (K.view sink.new).written }
    ensures good { IsTrue D.tells → (all : List Batch)
        → StandsFor (D.view disk).contents all → AreBatches all
        → IfErr result.0 (λ fault. IsBadLog fault → ⊥) }
    ensures opens { OnlyOpens D.Disk disk result.1 }
    ensures cause { IfErr result.0 (IsShowCause (D.view disk).faults (D.view result.1).faults
        (K.view sink.old).faults (K.view sink.new).faults) }
{
    one_reading();
    let mut log = match GateLog::open(alloc, disk, LIMIT) {
        Ok(log) => log,
        Err((fault, disk)) => return (Err(ShowFault::Log(OpenFault::from(fault))), disk),
    };
    if !log.whole() {
        let frame = log.count();
        return (
            Err(ShowFault::Log(OpenFault::BadLog { frame })),
            log.into_disk(),
        );
    }
    let shown = print_log(alloc, place, &mut log, sink);
    (shown, log.into_disk())
}

// What is left, with the status of what came of it.
fn ended<D, K>(shown: Result<(), ShowFault>, volume: Volume<D>, sink: K) -> Shown<D, K>
    ensures status { result.status ≡ status_shown shown }
    ensures end { result.end ≡ shown }
    ensures volume { result.volume ≡ volume }
    ensures sink { result.sink ≡ sink }
{
    Shown {
        status: status(shown),
        end: shown,
        volume,
        sink,
    }
}
