// Serving a workload, in memory.
ghost use Rattle.std.specs.Prelude.{◌≡◌, ◌≢◌, ◌⊎◌, ◌≤◌, ℕ, [], ◌∷◌, List, Contains, IsTrue, IfSome, IfOk, IfErr, OnOk, length, map, string_bytes};
ghost use Rattle.std.specs.List.{AllByRecursion};
ghost use Rattle.zb_model.specs.declared.record.Batch.{Batch};
ghost use Rattle.zb_outside.specs.Cause.{StreamFaultsRose};
ghost use Rattle.zb_words.specs.Plan.{IsPlan};
ghost use Rattle.zb_words.specs.declared.plan.Plan.TheVariants as plans;
ghost use Rattle.zb_tally.specs.Served.{IsWorkloadServed, IsWorkloadCut, AreLogsOf, IsSummary, PrintsSummary, IsTooLarge};
ghost use Rattle.zb_tally.specs.Status.{gen_status, run_end, IsRunFault, IsGenCause};
ghost use Rattle.zb_tally.specs.declared.fault.GenFault.TheVariants as faults;

use crate::counting::count_all;
use crate::fault::{GenFault, status};
use crate::printing::summary;
use std::alloc::Global;
use zb_base::Text;
use zb_disk::{Disk, SoundDisk};
use zb_gen::workload;
use zb_lines::send;
use zb_outside::{ListClock, MemSink, MemSource, Sink};
use zb_serve::{Cause, Ran, Session, serve_by};
use zb_store::Volume;
use zb_words::{ClockKind, GenPlan, Plan, PlanFault, ServePlan, plan_of};

// The most bytes that a log may have, as a server has it by default.
const LIMIT: u64 = 1_073_741_824;

// The most units of work behind a request, likewise.
const UNITS: u64 = 1_000;

// How many bytes of the lines are read at once.
const PIECE: usize = 65_536;

/// What is left when a workload was served.
#[derive(Drop)]
pub struct Generated<K> {
    /// 0 where what came of it was written, 2 where the words ask for no workload, 6 where the sink failed, 7 where memory
    /// was wanting, and 8 where a log was full.
    pub status: u8,
    /// What came of it, which the status tells in a number.
    pub end: Result<(), GenFault>,
    pub sink: K,
}

/// Serves a workload by the words of a command line, over empty logs in memory and with a clock that its requests move,
/// and writes what came of it: seven lines, each a word, a blank and a number. A log may have 1,073,741,824 bytes. It costs
/// what the server does for as many lines, and then reads each log once.
pub fn generate<K: Sink>(alloc: Global, words: &[String], mut sink: K) -> Generated<K>
    ensures known { Contains (0 ∷ 2 ∷ 6 ∷ 7 ∷ 8 ∷ []) result.status }
    ensures end { result.status ≡ gen_status result.end }

    // 2 exactly where the words ask for no workload, unless there was no memory to read them.
    ensures usage { result.status ≡ 2 → (plan : GenPlan) → IsPlan (map string_bytes words.now) (plans.Gen plan) → ⊥ }
    ensures planned { result.status ≢ 2 → ((result.status ≡ 7) × (result.sink ≡ sink))
        ⊎ ((plan : GenPlan) × IsPlan (map string_bytes words.now) (plans.Gen plan)) }

    // Nothing is written but a front of the summary of a workload that was served, and all of it at 0.
    ensures served { ((result.sink ≡ sink) × Contains (2 ∷ 7 ∷ 8 ∷ []) result.status)
        ⊎ (Contains (0 ∷ 6 ∷ 7 ∷ []) result.status × ((left : List ℕ)
        × PrintsSummary K.tells ⟦<SoundDisk as Disk>⟧ (map string_bytes words.now) (K.view sink).written (K.view result.sink).written left)) }
    ensures printed { result.status ≡ 0
        → PrintsSummary K.tells ⟦<SoundDisk as Disk>⟧ (map string_bytes words.now) (K.view sink).written (K.view result.sink).written [] }
    ensures sink { result.status ≡ 6 → StreamFaultsRose (K.view sink).faults (K.view result.sink).faults }
    ensures memory { result.status ≡ 7 → (result.sink ≡ sink) ⊎ IsTrue K.takes_memory }
    ensures full { result.status ≡ 8 → IsTooLarge ⟦<SoundDisk as Disk>⟧ (map string_bytes words.now) }
{
    let end = write_summary(alloc, words, &mut sink);
    Generated {
        status: status(end),
        end,
        sink,
    }
}

// Serves the workload that the words ask for, and writes what came of it.
fn write_summary<K: Sink>(alloc: Global, words: &[String], sink: &mut K) -> Result<(), GenFault>
    ensures served { ((sink.new ≡ sink.old) × Contains (2 ∷ 7 ∷ 8 ∷ []) (gen_status result))
        ⊎ (Contains (0 ∷ 6 ∷ 7 ∷ []) (gen_status result) × ((left : List ℕ)
        × PrintsSummary K.tells ⟦<SoundDisk as Disk>⟧ (map string_bytes words.now) (K.view sink.old).written (K.view sink.new).written left
        × OnOk result (left ≡ []))) }
    ensures cause { IfErr result (IsGenCause ⟦<SoundDisk as Disk>⟧ (map string_bytes words.now) K.takes_memory (K.view sink.old).faults (K.view sink.new).faults) }
    ensures memory { IfErr result (λ fault. fault ≡ faults.Memory → sink.new ≡ sink.old) }
{
    let text = match tell(alloc, words) {
        Ok(text) => text,
        Err(fault) => return Err(fault),
    };
    match send(sink, text.as_bytes()) {
        Ok(()) => Ok(()),
        Err(trouble) => Err(GenFault::Sink(trouble)),
    }
}

// The lines that tell what came of the workload that the words ask for.
fn tell(alloc: Global, words: &[String]) -> Result<String, GenFault>
    ensures told { IfOk result (λ text. IsSummary ⟦<SoundDisk as Disk>⟧ (map string_bytes words.now) (string_bytes text)) }
    ensures fault { IfErr result (IsRunFault ⟦<SoundDisk as Disk>⟧ (map string_bytes words.now)) }
{
    let plan = match gen_plan(alloc, words) {
        Ok(plan) => plan,
        Err(fault) => return Err(fault),
    };
    let back = match serve_workload(alloc, plan) {
        Ok(back) => back,
        Err(fault) => return Err(fault),
    };
    let Some(tally) = count_all(alloc, back) else {
        return Err(GenFault::Memory);
    };
    match summary(alloc, plan.requests, tally) {
        Ok(text) => Ok(text),
        Err(_) => Err(GenFault::Memory),
    }
}

// The plan of a workload that the words ask for.
fn gen_plan(alloc: Global, words: &[String]) -> Result<GenPlan, GenFault>
    ensures planned { IfOk result (λ plan. IsPlan (map string_bytes words.now) (plans.Gen plan)) }
    ensures within { IfOk result (λ plan. (1 ≤ plan.partitions) × (plan.partitions ≤ 16)) }
    ensures fault { IfErr result (IsRunFault ⟦<SoundDisk as Disk>⟧ (map string_bytes words.now)) }
{
    match plan_of(alloc, words) {
        Ok(Plan::Gen(plan)) => Ok(plan),
        Ok(Plan::Serve(_)) => Err(GenFault::Usage),
        Ok(Plan::Log(_)) => Err(GenFault::Usage),
        Err(PlanFault::Usage) => Err(GenFault::Usage),
        Err(PlanFault::Memory) => Err(GenFault::Memory),
    }
}

// The volumes that the run of a workload leaves, where it is done.
fn serve_workload(alloc: Global, plan: GenPlan) -> Result<Vec<Volume<SoundDisk>>, GenFault>
    requires some { 1 ≤ plan.partitions }
    requires few { plan.partitions ≤ 16 }
    ensures served { IfOk result (λ back. IsWorkloadServed ⟦<SoundDisk as Disk>⟧ plan back.items) }
    ensures logs { IfOk result (λ back. (logs : List (List Batch)) × AreLogsOf ⟦<SoundDisk as Disk>⟧ back.items logs) }
    ensures few { IfOk result (λ back. length back.items ≤ 16) }
    ensures fault { IfErr result (λ fault. (fault ≡ faults.Memory) ⊎ ((fault ≡ faults.LogFull) × IsWorkloadCut ⟦<SoundDisk as Disk>⟧ plan)) }
{
    let Ok(lines) = workload(alloc, plan.number, plan.requests) else {
        return Err(GenFault::Memory);
    };
    let Some(volumes) = empty_volumes(alloc, plan.partitions) else {
        return Err(GenFault::Memory);
    };
    let mut session = Session {
        source: MemSource::new(lines, PIECE, Vec::new(alloc)),
        sink: MemSink::new(alloc, Vec::new(alloc)),
    };
    let mut clock = ListClock::new(Vec::new(alloc));
    let by = serve_plan(alloc, plan.partitions);
    let Ran { cause, volumes, .. } = serve_by(alloc, &by, &mut session, volumes, &mut clock);
    let ended = run_end(&cause);
    drop(cause);
    match ended {
        Ok(()) => Ok(volumes),
        Err(fault) => Err(fault),
    }
}

// What a run of a workload comes to, by why it ended. Beside being done it runs out of memory, or a log is full. Nothing
// else comes: no call of these devices fails, the words were read, an empty log can be opened, and the lines have fewer
// bytes than a session may take.
fn run_end(cause: &Cause) -> Result<(), GenFault>
    ensures { result ≡ run_end cause.now }
{
    match cause {
        Cause::Done => Ok(()),
        Cause::LogFull { .. } => Err(GenFault::LogFull),
        _ => Err(GenFault::Memory),
    }
}

// The plan by which a workload is served over so many partitions.
fn serve_plan(alloc: Global, partitions: u32) -> ServePlan
    ensures limit { result.limit ≡ 1073741824 }
    ensures units { result.units ≡ 1000 }
    ensures clock { result.clock ≡ ClockKind.Manual }
{
    ServePlan {
        partitions,
        dir: Text::empty(alloc),
        clock: ClockKind::Manual,
        limit: LIMIT,
        units: UNITS,
        files: zb_base::List::empty(alloc),
    }
}

// So many volumes with nothing in them; `None` where memory was wanting.
fn empty_volumes(alloc: Global, count: u32) -> Option<Vec<Volume<SoundDisk>>>
    ensures many { IfSome result (λ volumes. length volumes.items ≡ count) }
    ensures empty { IfSome result (λ volumes. AllByRecursion (λ volume. volume.log ≡ []) volumes.items) }
{
    let mut volumes = Vec::new(alloc);
    for _place in 0..count {
        let volume = Volume {
            log: SoundDisk::new(Vec::new(alloc)),
            snap_a: SoundDisk::new(Vec::new(alloc)),
            snap_b: SoundDisk::new(Vec::new(alloc)),
        };
        match volumes.push(volume) {
            Ok(()) => {}
            Err(_) => return None,
        }
    }
    Some(volumes)
}
