// Finding a frame of an open log by its number.
ghost use Rattle.std.specs.Prelude.{◌≡◌, ◌<◌, ◌≤◌, ◌+◌, ◌^◌, ℕ, List, length, take, slice_range, IsTrue, IfErr, IfOk, OnOk};
ghost use Rattle.zb_store.specs.Cause.{IsCaused};
ghost use Rattle.zb_store.specs.Calls.{OnlyReads};
ghost use Rattle.zb_store.specs.Stands.{next_gate, Leads};

use crate::fault::StoreFault;
use crate::scan::HEAD_BYTES;
use zb_disk::Disk;

/// The gate of the frame with this number, found from the gate of an earlier one on, by the lengths that are told
/// behind the gates. Only a disk that doesn't tell its contents leads anywhere but to a gate up to the last one.
pub fn walk<D: Disk>(
    disk: &mut D,
    near: (u64, u64),
    frame: u64,
    last: u64,
) -> Result<u64, StoreFault>
    requires earlier { near.0 ≤ frame }
    requires before { near.1 ≤ last }
    requires close { last < 2 ^ 58 }
    requires inside { IsTrue D.tells → last < length (D.view disk.old).contents }
    ensures gate { IsTrue D.tells → (bodies : List (List ℕ))
        → Leads (D.view disk.old).contents 0 bodies last
        → Leads (D.view disk.old).contents 0 (take near.0 bodies) near.1 → frame < length bodies
        → IfOk result (Leads (D.view disk.old).contents 0 (take frame bodies)) }
    ensures inside { IfOk result (λ gate. gate ≤ last) }
    ensures reads { OnlyReads D.Disk disk.old disk.new }
    ensures steady { IsTrue D.counts_failures
        → OnOk result ((D.view disk.new).faults ≡ (D.view disk.old).faults) }
    ensures cause { IfErr result (IsCaused D.counts_failures (D.view disk.old).faults
        (D.view disk.new).faults) }
{
    let (first, mut gate) = near;
    for _passed in first..frame {
        gate = gate_behind(disk, gate, last)?;
    }
    Ok(gate)
}

/// The gate behind the frame of this one. Where a disk that doesn't tell its contents shows one that lies behind the
/// last, the answer is `Memory`.
pub fn gate_behind<D: Disk>(disk: &mut D, gate: u64, last: u64) -> Result<u64, StoreFault>
    requires before { gate ≤ last }
    requires close { last < 2 ^ 58 }
    requires inside { IsTrue D.tells → last < length (D.view disk.old).contents }
    ensures next { IsTrue D.tells
        → IfOk result (λ next. next ≡ next_gate (D.view disk.old).contents gate) }
    ensures behind { IfOk result (λ next. gate + 9 ≤ next) }
    ensures inside { IfOk result (λ next. next ≤ last) }
    ensures reads { OnlyReads D.Disk disk.old disk.new }
    ensures steady { IsTrue D.counts_failures
        → OnOk result ((D.view disk.new).faults ≡ (D.view disk.old).faults) }
    ensures cause { IfErr result (IsCaused D.counts_failures (D.view disk.old).faults
        (D.view disk.new).faults) }
{
    if last - gate < HEAD_BYTES {
        return Err(StoreFault::Memory);
    }
    let mut size = [0; 8];
    disk.read_at(gate + 1, &mut size)?;
    let size = u64::from_be_bytes(size);
    if size > last - gate - HEAD_BYTES {
        return Err(StoreFault::Memory);
    }
    Ok(gate + HEAD_BYTES + size)
}

/// Reads a part of the file, from one place up to another.
pub fn read_part<D: Disk>(
    disk: &mut D,
    start: u64,
    end: u64,
    part: &mut Vec<u8>,
) -> Result<(), StoreFault>
    requires order { start ≤ end }
    requires close { end < 2 ^ 58 }
    requires inside { IsTrue D.tells → end ≤ length (D.view disk.old).contents }
    ensures part { IsTrue D.tells
        → OnOk result (part.new.items ≡ slice_range (D.view disk.old).contents start end) }
    ensures reads { OnlyReads D.Disk disk.old disk.new }
    ensures steady { IsTrue D.counts_failures
        → OnOk result ((D.view disk.new).faults ≡ (D.view disk.old).faults) }
    ensures cause { IfErr result (IsCaused D.counts_failures (D.view disk.old).faults
        (D.view disk.new).faults) }
{
    part.resize((end - start) as usize, 0)?;
    Ok(disk.read_at(start, part.as_mut_slice())?)
}
