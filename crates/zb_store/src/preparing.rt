// What is done to a file before its frames are found.
ghost use Rattle.std.specs.Prelude.{◌≡◌, ◌<◌, ◌≤◌, ◌+◌, ◌^◌, ℕ, List, [], ◌∷◌, length, IsTrue, IfErr, IfOk, OnOk};
ghost use Rattle.zb_disk.specs.Disk.{Only};
ghost use Rattle.zb_store.specs.Cause.{IsCaused};
ghost use Rattle.zb_store.specs.Calls.{OnlyOpens, IsAsOpened, Settles};

use crate::fault::StoreFault;
use zb_disk::Disk;

// The gate of a log without frames.
const CLOSED_GATE: u8 = 0;

/// Brings all that was written to a file onto the disk, and makes a closed gate of a file of at most one byte. It
/// answers the file's length.
pub fn prepare<D: Disk>(disk: &mut D) -> Result<u64, StoreFault>
    ensures length { IsTrue D.tells → IfOk result (λ end. end ≡ length (D.view disk.new).contents) }
    ensures some { IfOk result (λ end. 0 < end) }
    ensures small { IfOk result (λ end. end < 2 ^ 58) }
    ensures gate { IsTrue D.tells → length (D.view disk.old).contents ≤ 1
        → OnOk result ((D.view disk.new).contents ≡ 0 ∷ []) }
    ensures durable { IsTrue D.tells_images
        → OnOk result (Only (D.view disk.new).contents (D.images disk.new)) }
    ensures settled { IsTrue D.tells_images
        → OnOk result (Settles (D.view disk.old).moment (D.view disk.new).moment
        (D.images disk.old) (D.since disk.new) (IsAsOpened (D.view disk.old).contents)) }
    ensures opens { OnlyOpens D.Disk disk.old disk.new }
    ensures steady { IsTrue D.counts_failures
        → OnOk result ((D.view disk.new).faults ≡ (D.view disk.old).faults) }
    ensures cause { IfErr result (IsCaused D.counts_failures (D.view disk.old).faults
        (D.view disk.new).faults) }
{
    disk.sync()?;
    let end = disk.len()?;
    if end > 1 {
        return Ok(end);
    }
    make_gate(disk)?;
    Ok(1)
}

// Makes a closed gate of a file of at most one byte.
fn make_gate<D: Disk>(disk: &mut D) -> Result<(), StoreFault>
    requires short { IsTrue D.tells → length (D.view disk.old).contents ≤ 1 }
    requires settled { IsTrue D.tells_images → Only (D.view disk.old).contents (D.images disk.old) }
    ensures gate { IsTrue D.tells → OnOk result ((D.view disk.new).contents ≡ 0 ∷ []) }
    ensures durable { IsTrue D.tells_images
        → OnOk result (Only (D.view disk.new).contents (D.images disk.new)) }
    ensures opens { OnlyOpens D.Disk disk.old disk.new }
    ensures steady { IsTrue D.counts_failures
        → OnOk result ((D.view disk.new).faults ≡ (D.view disk.old).faults) }
    ensures cause { IfErr result (IsCaused D.counts_failures (D.view disk.old).faults
        (D.view disk.new).faults) }
{
    put_gate(disk)?;
    Ok(disk.sync()?)
}

// Writes it.
fn put_gate<D: Disk>(disk: &mut D) -> Result<(), StoreFault>
    requires short { IsTrue D.tells → length (D.view disk.old).contents ≤ 1 }
    requires settled { IsTrue D.tells_images → Only (D.view disk.old).contents (D.images disk.old) }
    ensures gate { IsTrue D.tells → OnOk result ((D.view disk.new).contents ≡ 0 ∷ []) }
    ensures opens { OnlyOpens D.Disk disk.old disk.new }
    ensures steady { IsTrue D.counts_failures
        → OnOk result ((D.view disk.new).faults ≡ (D.view disk.old).faults) }
    ensures cause { IfErr result (IsCaused D.counts_failures (D.view disk.old).faults
        (D.view disk.new).faults) }
{
    Ok(disk.write_at(0, &[CLOSED_GATE])?)
}
