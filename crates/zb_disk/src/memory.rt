ghost use Rattle.std.specs.Prelude.{◌≡◌, ◌<◌, ◌≤◌, ◌+◌, ◌^◌, ℕ, List, [], ◌∷◌, ◌++◌, length, slice_range, true, vec_len, IsTrue, IsFalse, IfOk, OnOk, OnErr, IsErrOf};
ghost use Rattle.zb_disk.specs.Calls.{FailsAsListed, IsListed};
ghost use Rattle.zb_disk.specs.Disk.{Only, Torn, Follows, Elapses, overwritten};
ghost use Rattle.zb_disk.specs.Cause.{HasCause, Rose};
ghost use Rattle.zb_disk.specs.Kept.{file_after, is_write, IsImage, WasImage};
ghost use Rattle.zb_disk.specs.MomentLaws as moments;
ghost use Rattle.zb_disk.specs.declared.calls.Call.TheVariants.{Wrote, Synced, Other};
ghost use Rattle.zb_disk.specs.declared.disk.Trouble.TheVariants.{Failed, Memory};

use crate::bytes::{copy_out, overwrite};
use crate::calls::{Call, CallLog, Write};
use crate::disk::{Disk, Trouble};
use crate::faults::count_fault;
use crate::image::image_of;
use std::alloc::{AllocError, Global};

/// A file in memory that fails where it is told to. It keeps each call, so it knows what a crash at
/// each moment may have left; its moment is the number of calls so far. A call that wants memory
/// changes nothing, and isn't counted.
#[derive(Drop)]
pub struct MemDisk {
    alloc: Global,
    first: Vec<u8>,
    bytes: Vec<u8>,
    log: CallLog,
    ghost is_kept: { bytes.items ≡ file_after first.items log.calls.items },
    ghost is_small: { length bytes.items < 2 ^ 58 },
}

impl MemDisk {
    ghost use Rattle.zb_disk.specs.MemDisk.{failing_calls_of, IsLeftAt, IsFilledAt, IsLongestAt};

    /// A disk with these bytes, all of them on the disk. The calls with these numbers, from 0, will fail.
    pub fn new(alloc: Global, bytes: Vec<u8>, fails: Vec<u64>) -> Result<MemDisk, AllocError>
        requires { vec_len bytes < 2 ^ 58 }
        ensures contents { IfOk result (λ disk. (⟦<MemDisk as Disk>⟧.view disk).contents ≡ bytes.items) }
        ensures durable { IfOk result (λ disk. Only bytes.items (⟦<MemDisk as Disk>⟧.images disk)) }
        ensures faults { IfOk result (λ disk. (⟦<MemDisk as Disk>⟧.view disk).faults ≡ 0) }
        ensures moment { IfOk result (λ disk. (⟦<MemDisk as Disk>⟧.view disk).moment ≡ 0) }
        ensures fails { IfOk result (λ disk. failing_calls_of disk ≡ fails.items) }
    {
        let first = bytes.to_vec(alloc)?;
        let log = CallLog::new(alloc, fails);
        Ok(MemDisk {
            alloc,
            first,
            bytes,
            log,
        })
    }

    /// The number of calls so far, those that failed too.
    pub fn moment(&self) -> u64
        ensures { result ≡ (⟦<MemDisk as Disk>⟧.view self.now).moment }
    {
        self.log.calls.len() as u64
    }

    /// The bytes of the file, as a read gives them.
    pub fn bytes(&self) -> &[u8]
        ensures { result.now ≡ (⟦<MemDisk as Disk>⟧.view self.now).contents }
    {
        &self.bytes
    }

    /// The longest of the images of a moment, in which the bytes that writes reached since the sync before
    /// it are those of the fill, repeated. An empty fill stands for zeros.
    pub fn image(&self, alloc: Global, moment: u64, fill: &[u8]) -> Result<Vec<u8>, AllocError>
        requires { moment ≤ (⟦<MemDisk as Disk>⟧.view self.now).moment }
        ensures left { IfOk result (λ image. IsLeftAt self.now moment image.items) }
        ensures filled { IfOk result (λ image. IsFilledAt self.now moment fill.now image.items) }
        ensures longest { IfOk result (λ image. IsLongestAt self.now moment image.items) }
        ensures since { IfOk result (λ image. ⟦<MemDisk as Disk>⟧.since self.now moment image.items) }
        ensures now { moment ≡ (⟦<MemDisk as Disk>⟧.view self.now).moment
            → IfOk result (λ image. ⟦<MemDisk as Disk>⟧.images self.now image.items) }
    {
        image_of(alloc, &self.first, &self.log.calls[..moment as usize], fill)
    }
}

// Keeps a call that doesn't write. It fails where it is listed. The clauses hold whatever bytes the
// file began with.
#[tactic(auto, using(crate::proofs::CallLemmas::steps))]
fn keep(log: &mut CallLog, call: Call) -> Result<(), Trouble>
    requires { IsFalse (is_write call) }
    ensures listed { FailsAsListed log.old log.new result }
    ensures kept { OnOk result (log.new.calls.items ≡ log.old.calls.items ++ call ∷ []) }
    ensures failed { IsErrOf result Failed → log.new.calls.items ≡ log.old.calls.items ++ Other ∷ [] }
    ensures file { (first : List ℕ) → file_after first log.new.calls.items ≡ file_after first log.old.calls.items }
    ensures synced { call ≡ Synced → OnOk result ((first c : List ℕ) → IsImage first log.new.calls.items c → c ≡ file_after first log.new.calls.items) }
    ensures crash { (first c : List ℕ) → IsImage first log.new.calls.items c → IsImage first log.old.calls.items c }
    ensures time { (first : List ℕ) → Elapses (length log.old.calls.items) (length log.new.calls.items)
        (WasImage first log.old.calls.items) (WasImage first log.new.calls.items) (IsImage first log.new.calls.items) }
    ensures cause { HasCause true true log.old.faults log.new.faults result }
{
    if log.fails_next() {
        log.calls.push(Call::Other)?;
        return Err(count_fault(&mut log.faults));
    }
    log.calls.push(call)?;
    Ok(())
}

// Keeps a write, and does it. An `Err` changes nothing.
#[tactic(auto, using(crate::proofs::CallLemmas::steps))]
fn write(bytes: &mut Vec<u8>, calls: &mut Vec<Call>, write: Write) -> Result<(), AllocError>
    requires inside { write.at ≤ length bytes.old.items }
    requires done { IsTrue write.is_done }
    ensures bytes { OnOk result (bytes.new.items ≡ overwritten bytes.old.items write.at write.bytes.items) }
    ensures same { OnErr result (bytes.new.items ≡ bytes.old.items) }
    ensures kept { OnOk result (calls.new.items ≡ calls.old.items ++ Wrote write ∷ []) }
    ensures file { (first : List ℕ) → bytes.old.items ≡ file_after first calls.old.items → bytes.new.items ≡ file_after first calls.new.items }
    ensures crash { (first : List ℕ) → Follows (Torn write.at (length write.bytes.items)) (IsImage first calls.old.items) (IsImage first calls.new.items) }
    ensures time { (first : List ℕ) → Elapses (length calls.old.items) (length calls.new.items)
        (WasImage first calls.old.items) (WasImage first calls.new.items) (IsImage first calls.new.items) }
{
    calls.reserve(1)?;
    overwrite(bytes, write.at, &write.bytes)?;
    calls.push_reserved(Call::Wrote(write));
    Ok(())
}

// Keeps a write that failed.
#[tactic(auto, using(crate::proofs::CallLemmas::steps))]
fn keep_failed(log: &mut CallLog, write: Write) -> Trouble
    requires { IsFalse write.is_done }
    ensures fails { log.new.fails ≡ log.old.fails }
    ensures kept { result ≡ Failed → log.new.calls.items ≡ log.old.calls.items ++ Wrote write ∷ [] }
    ensures file { (first : List ℕ) → file_after first log.new.calls.items ≡ file_after first log.old.calls.items }
    ensures crash { (first : List ℕ) → Follows (Torn write.at (length write.bytes.items)) (IsImage first log.old.calls.items) (IsImage first log.new.calls.items) }
    ensures time { (first : List ℕ) → Elapses (length log.old.calls.items) (length log.new.calls.items)
        (WasImage first log.old.calls.items) (WasImage first log.new.calls.items) (IsImage first log.new.calls.items) }
    ensures later { log.old.faults ≤ log.new.faults }
    ensures cause { result ≡ Failed → Rose log.old.faults log.new.faults }
    ensures steady { result ≡ Memory → log.new.faults ≡ log.old.faults }
{
    match log.calls.push(Call::Wrote(write)) {
        Ok(()) => count_fault(&mut log.faults),
        Err(refused) => Trouble::from(refused),
    }
}

impl Disk for MemDisk {
    ghost view = { λ disk. record { contents = disk.bytes.items; faults = disk.log.faults; moment = length disk.log.calls.items } };

    ghost tells = { true };

    ghost tells_images = { true };

    ghost counts_failures = { true };

    ghost takes_memory = { true };

    ghost images = { λ disk. IsImage disk.first.items disk.log.calls.items };

    ghost since = { λ disk. WasImage disk.first.items disk.log.calls.items };

    fn len(&mut self) -> Result<u64, Trouble>
        ensures length { IfOk result (λ n. n ≡ length self.old.bytes.items) }
        ensures small { IfOk result (λ n. n < 2 ^ 58) }
        ensures same { self.new.bytes.items ≡ self.old.bytes.items }
        ensures cause { HasCause true true self.old.log.faults self.new.log.faults result }
        ensures crash { (c : List ℕ) → IsImage self.new.first.items self.new.log.calls.items c → IsImage self.old.first.items self.old.log.calls.items c }
        ensures time { Elapses (length self.old.log.calls.items) (length self.new.log.calls.items)
            (WasImage self.old.first.items self.old.log.calls.items) (WasImage self.new.first.items self.new.log.calls.items)
            (IsImage self.new.first.items self.new.log.calls.items) }
        ensures listed { FailsAsListed self.old.log self.new.log result }
    {
        keep(&mut self.log, Call::Other)?;
        Ok(self.bytes.len() as u64)
    }

    fn read_at(&mut self, at: u64, piece: &mut [u8]) -> Result<(), Trouble>
        requires { at + length piece.old ≤ length self.old.bytes.items }
        ensures bytes { OnOk result (piece.new ≡ slice_range self.old.bytes.items at (at + length piece.old)) }
        ensures same { self.new.bytes.items ≡ self.old.bytes.items }
        ensures cause { HasCause true true self.old.log.faults self.new.log.faults result }
        ensures crash { (c : List ℕ) → IsImage self.new.first.items self.new.log.calls.items c → IsImage self.old.first.items self.old.log.calls.items c }
        ensures time { Elapses (length self.old.log.calls.items) (length self.new.log.calls.items)
            (WasImage self.old.first.items self.old.log.calls.items) (WasImage self.new.first.items self.new.log.calls.items)
            (IsImage self.new.first.items self.new.log.calls.items) }
        ensures listed { FailsAsListed self.old.log self.new.log result }
    {
        keep(&mut self.log, Call::Other)?;
        copy_out(&self.bytes, at, piece);
        Ok(())
    }

    fn write_at(&mut self, at: u64, piece: &[u8]) -> Result<(), Trouble>
        requires inside { at ≤ length self.old.bytes.items }
        requires end { at + length piece.now < 2 ^ 58 }
        ensures written { OnOk result (self.new.bytes.items ≡ overwritten self.old.bytes.items at piece.now) }
        ensures same { OnErr result (self.new.bytes.items ≡ self.old.bytes.items) }
        ensures cause { HasCause true true self.old.log.faults self.new.log.faults result }
        ensures crash { Follows (Torn at (length piece.now)) (IsImage self.old.first.items self.old.log.calls.items)
            (IsImage self.new.first.items self.new.log.calls.items) }
        ensures time { Elapses (length self.old.log.calls.items) (length self.new.log.calls.items)
            (WasImage self.old.first.items self.old.log.calls.items) (WasImage self.new.first.items self.new.log.calls.items)
            (IsImage self.new.first.items self.new.log.calls.items) }
        ensures listed { FailsAsListed self.old.log self.new.log result }
    {
        let is_done = !self.log.fails_next();
        let bytes = piece.to_vec(self.alloc)?;
        let call = Write { at, bytes, is_done };
        if is_done {
            return Ok(write(&mut self.bytes, &mut self.log.calls, call)?);
        }
        Err(keep_failed(&mut self.log, call))
    }

    fn sync(&mut self) -> Result<(), Trouble>
        ensures durable { OnOk result (Only self.new.bytes.items (IsImage self.new.first.items self.new.log.calls.items)) }
        ensures same { self.new.bytes.items ≡ self.old.bytes.items }
        ensures cause { HasCause true true self.old.log.faults self.new.log.faults result }
        ensures crash { (c : List ℕ) → IsImage self.new.first.items self.new.log.calls.items c → IsImage self.old.first.items self.old.log.calls.items c }
        ensures time { Elapses (length self.old.log.calls.items) (length self.new.log.calls.items)
            (WasImage self.old.first.items self.old.log.calls.items) (WasImage self.new.first.items self.new.log.calls.items)
            (IsImage self.new.first.items self.new.log.calls.items) }
        ensures listed { FailsAsListed self.old.log self.new.log result }
    {
        keep(&mut self.log, Call::Synced)
    }

    ghost images_told = { λ told. told };

    ghost reads_image = { λ disk _. moments.reads disk.first.items disk.log.calls.items disk.bytes.items disk.is_kept };

    ghost counts_now = { λ disk t c _ le image. moments.counts_now disk.first.items disk.log.calls.items t c le image };

    ghost only_now = { λ disk c _ was. moments.only_now disk.first.items disk.log.calls.items c was };
}
