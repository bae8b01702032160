// Printing the records of a log that is known to be good.
ghost use Rattle.std.specs.Prelude.{◌≡◌, ◌+◌, ◌<◌, ◌≤◌, ◌^◌, ℕ, List, Some, IsTrue, IfOk, IfErr, slice_get};
ghost use Rattle.zb_disk.specs.Cause.{Rose};
ghost use Rattle.zb_model.specs.declared.record.Batch.{Batch};
ghost use Rattle.zb_outside.specs.Cause.{StreamFaultsRose};
ghost use Rattle.zb_outside.specs.declared.trouble.Trouble.TheVariants as troubles;
ghost use Rattle.zb_partition.specs.Log.{bodies_of, AreBatches};
ghost use Rattle.zb_partition.specs.declared.fault.OpenFault.TheVariants as open_faults;
ghost use Rattle.zb_store.specs.Calls.{OnlyReads};
ghost use Rattle.zb_store.specs.GateLog.{disk_of_log, count_of, HasClosedFrames, IsSameLog};
ghost use Rattle.zb_show.specs.Lines.{batch_lines, log_lines, records_in};
ghost use Rattle.zb_show.specs.Show.{Writes};
ghost use Rattle.zb_show.specs.Status.{IsBadLog, IsShowCause};

use crate::fault::ShowFault;
use crate::lines::{put_batch, records_in};
use std::alloc::Global;
use zb_codec::read;
use zb_disk::Disk;
use zb_lines::send;
use zb_model::{Batch, PartitionId};
use zb_outside::{Sink, Trouble};
use zb_partition::OpenFault;
use zb_store::GateLog;

/// Prints the records of a log, a line for each; after an `Err` a front of these lines was written. It reads the log
/// once, and keeps no more than one batch of it.
pub fn print_log<D: Disk, K: Sink>(
    alloc: Global,
    place: PartitionId,
    log: &mut GateLog<D>,
    sink: &mut K,
) -> Result<(), ShowFault>
    ensures shown { IsTrue D.tells → IsTrue K.tells → (all : List Batch)
        → HasClosedFrames (D.view (disk_of_log log.old)).contents log.old (bodies_of all) → AreBatches all
        → Writes result (log_lines place all) (K.view sink.old).written (K.view sink.new).written }
    ensures good { IsTrue D.tells → (all : List Batch)
        → HasClosedFrames (D.view (disk_of_log log.old)).contents log.old (bodies_of all) → AreBatches all
        → IfErr result (λ fault. IsBadLog fault → ⊥) }
    ensures reads { OnlyReads D.Disk (disk_of_log log.old) (disk_of_log log.new) }
    ensures cause { IfErr result (IsShowCause (D.view (disk_of_log log.old)).faults (D.view (disk_of_log log.new)).faults
        (K.view sink.old).faults (K.view sink.new).faults) }
{
    let count = log.count();
    let mut position: u128 = 1;
    let mut body = Vec::new(alloc);
    for i in 0..count {
        position = match print_frame(alloc, place, position, i, log, &mut body, sink) {
            Ok(next) => next,
            Err(fault) => return Err(fault),
        };
    }
    Ok(())
}

// Prints the records of the batch in this frame, whose command has this position, and tells the position behind.
fn print_frame<D: Disk, K: Sink>(
    alloc: Global,
    place: PartitionId,
    position: u128,
    i: u64,
    log: &mut GateLog<D>,
    body: &mut Vec<u8>,
    sink: &mut K,
) -> Result<u128, ShowFault>
    requires within { i < count_of log.old }
    requires room { position + 2 ^ 64 < 2 ^ 128 }
    ensures shown { IsTrue D.tells → IsTrue K.tells → (all : List Batch)
        → HasClosedFrames (D.view (disk_of_log log.old)).contents log.old (bodies_of all) → AreBatches all
        → (batch : Batch) × (slice_get all i ≡ Some batch) × IfOk result (λ next. next ≡ position + records_in batch)
        × Writes result (batch_lines place position batch) (K.view sink.old).written (K.view sink.new).written }
    ensures kept { IsTrue D.tells → (bodies : List (List ℕ)) → HasClosedFrames (D.view (disk_of_log log.old)).contents log.old bodies
        → HasClosedFrames (D.view (disk_of_log log.new)).contents log.new bodies }
    ensures good { IsTrue D.tells → (all : List Batch)
        → HasClosedFrames (D.view (disk_of_log log.old)).contents log.old (bodies_of all) → AreBatches all
        → IfErr result (λ fault. IsBadLog fault → ⊥) }
    ensures few { IfOk result (λ next. next ≤ position + 2 ^ 64) }
    ensures same { IsSameLog log.old log.new }
    ensures reads { OnlyReads D.Disk (disk_of_log log.old) (disk_of_log log.new) }
    ensures later { (K.view sink.old).faults ≤ (K.view sink.new).faults }
    ensures cause { IfErr result (IsShowCause (D.view (disk_of_log log.old)).faults (D.view (disk_of_log log.new)).faults
        (K.view sink.old).faults (K.view sink.new).faults) }
{
    let batch = match read_batch(alloc, i, log, body) {
        Ok(batch) => batch,
        Err(fault) => return Err(ShowFault::Log(fault)),
    };
    if let Err(trouble) = print_batch(alloc, place, position, &batch, sink) {
        batch.discard();
        return Err(ShowFault::Sink(trouble));
    }
    let next = position + records_in(&batch);
    batch.discard();
    Ok(next)
}

/// The batch in this frame of a log. It costs a step for each of its bytes, and the memory for it.
pub fn read_batch<D: Disk>(
    alloc: Global,
    i: u64,
    log: &mut GateLog<D>,
    body: &mut Vec<u8>,
) -> Result<Batch, OpenFault>
    requires { i < count_of log.old }
    ensures read { IsTrue D.tells → (all : List Batch)
        → HasClosedFrames (D.view (disk_of_log log.old)).contents log.old (bodies_of all) → AreBatches all
        → IfOk result (λ batch. slice_get all i ≡ Some batch) }
    ensures kept { IsTrue D.tells → (bodies : List (List ℕ)) → HasClosedFrames (D.view (disk_of_log log.old)).contents log.old bodies
        → HasClosedFrames (D.view (disk_of_log log.new)).contents log.new bodies }
    ensures good { IsTrue D.tells → (all : List Batch)
        → HasClosedFrames (D.view (disk_of_log log.old)).contents log.old (bodies_of all) → AreBatches all
        → IfErr result (λ fault. (n : ℕ) → fault ≡ open_faults.BadLog n → ⊥) }
    ensures same { IsSameLog log.old log.new }
    ensures reads { OnlyReads D.Disk (disk_of_log log.old) (disk_of_log log.new) }
    ensures cause { IfErr result (λ fault. fault ≡ open_faults.DiskFault → Rose (D.view (disk_of_log log.old)).faults (D.view (disk_of_log log.new)).faults) }
{
    log.frame(i, body)?;
    match read(alloc, body)? {
        Some(batch) => Ok(batch),
        None => Err(OpenFault::BadLog { frame: i }),
    }
}

// Writes the lines of a batch, whose command has this position.
fn print_batch<K: Sink>(
    alloc: Global,
    place: PartitionId,
    position: u128,
    batch: &Batch,
    sink: &mut K,
) -> Result<(), Trouble>
    requires { position + 2 ^ 64 < 2 ^ 128 }
    ensures written { IsTrue K.tells → Writes result (batch_lines place position batch.now) (K.view sink.old).written (K.view sink.new).written }
    ensures later { (K.view sink.old).faults ≤ (K.view sink.new).faults }
    ensures cause { IfErr result (λ trouble. trouble ≡ troubles.Failed → StreamFaultsRose (K.view sink.old).faults (K.view sink.new).faults) }
{
    let mut text = String::new(alloc);
    match put_batch(&mut text, place, position, batch) {
        Ok(()) => send(sink, text.as_bytes()),
        Err(_) => Err(Trouble::Memory),
    }
}
