// Reading a file in pieces.
ghost use Rattle.std.specs.Prelude.{◌≡◌, ◌<◌, ◌≤◌, ◌+◌, ◌^◌, length, take, drop, IsTrue, IfErr, IfOk, OnOk};
ghost use Rattle.zb_disk.specs.Cause.{HasCause};
ghost use Rattle.zb_store.specs.Cause.{IsCaused};
ghost use Rattle.zb_store.specs.Calls.{OnlyReads};
ghost use Rattle.zb_store.specs.Step.{IsAtGate, LiesBehind};

use crate::fault::StoreFault;
use crate::scan::HEAD_BYTES;
use crate::step::{Step, step_at};
use std::alloc::{AllocError, Global};
use zb_disk::{Disk, Trouble};

// The most bytes that are read at once, unless a frame has more.
const PIECE_BYTES: u64 = 65_536;

/// A piece of a file: the bytes that were read last, in a buffer that is used again and again.
#[derive(Drop)]
pub struct Window {
    pub bytes: Vec<u8>,
    // How many bytes of the buffer are those of the file from `start` on.
    filled: usize,
    pub start: u64,
    // The length of the file.
    end: u64,
    ghost inside: { filled ≤ length bytes.items },
    ghost within: { start + filled ≤ end },
    ghost small: { end < 2 ^ 58 },
}

impl Window {
    ghost use Rattle.zb_store.specs.Window.{IsPieceOf, Holds, HoldsFrame};

    /// Nothing yet of a file of this length.
    pub fn new(alloc: Global, end: u64) -> Window
        requires { end < 2 ^ 58 }
        ensures none { result.filled ≡ 0 }
        ensures end { result.end ≡ end }
    {
        Window {
            bytes: Vec::new(alloc),
            filled: 0,
            start: 0,
            end,
        }
    }

    /// What stands at the gate at this place. Where a frame does, the window holds it as a whole.
    pub fn step<D: Disk>(&mut self, disk: &mut D, at: u64) -> Result<Step, StoreFault>
        requires at { at < self.old.end }
        requires end { IsTrue D.tells → self.old.end ≡ length (D.view disk.old).contents }
        requires piece { IsTrue D.tells → IsPieceOf (D.view disk.old).contents self.old }
        ensures step { IsTrue D.tells → IfOk result (IsAtGate (D.view disk.old).contents at) }
        ensures behind { IfOk result (LiesBehind at self.old.end) }
        ensures holds { IfOk result (HoldsFrame at self.new) }
        ensures piece { IsTrue D.tells → IsPieceOf (D.view disk.new).contents self.new }
        ensures end { self.new.end ≡ self.old.end }
        ensures room { length self.old.bytes.items ≤ length self.new.bytes.items }
        ensures reads { OnlyReads D.Disk disk.old disk.new }
        ensures steady { IsTrue D.counts_failures
            → OnOk result ((D.view disk.new).faults ≡ (D.view disk.old).faults) }
        ensures cause { IfErr result (IsCaused D.counts_failures (D.view disk.old).faults
            (D.view disk.new).faults) }
    {
        match self.look(disk, at)? {
            Step::Closed => Ok(Step::Closed),
            Step::Cut => Ok(Step::Cut),
            Step::Next(next) => {
                self.hold(disk, at, next - at)?;
                Ok(Step::Next(next))
            }
        }
    }

    // What stands at the gate at this place.
    fn look<D: Disk>(&mut self, disk: &mut D, at: u64) -> Result<Step, StoreFault>
        requires at { at < self.old.end }
        requires end { IsTrue D.tells → self.old.end ≡ length (D.view disk.old).contents }
        requires piece { IsTrue D.tells → IsPieceOf (D.view disk.old).contents self.old }
        ensures step { IsTrue D.tells → IfOk result (IsAtGate (D.view disk.old).contents at) }
        ensures behind { IfOk result (LiesBehind at self.old.end) }
        ensures piece { IsTrue D.tells → IsPieceOf (D.view disk.new).contents self.new }
        ensures end { self.new.end ≡ self.old.end }
        ensures room { length self.old.bytes.items ≤ length self.new.bytes.items }
        ensures reads { OnlyReads D.Disk disk.old disk.new }
        ensures steady { IsTrue D.counts_failures
            → OnOk result ((D.view disk.new).faults ≡ (D.view disk.old).faults) }
        ensures cause { IfErr result (IsCaused D.counts_failures (D.view disk.old).faults
            (D.view disk.new).faults) }
    {
        self.hold(disk, at, HEAD_BYTES)?;
        let from = (at - self.start) as usize;
        Ok(step_at(&self.bytes[from..self.filled], at, self.end))
    }

    // Has so many bytes from this place on, or all that there are. Most often they were read, so the reading stands
    // apart.
    #[inline]
    fn hold<D: Disk>(&mut self, disk: &mut D, at: u64, size: u64) -> Result<(), StoreFault>
        requires at { at < self.old.end }
        requires size { 0 < size }
        requires few { size < 2 ^ 58 }
        requires end { IsTrue D.tells → self.old.end ≡ length (D.view disk.old).contents }
        requires piece { IsTrue D.tells → IsPieceOf (D.view disk.old).contents self.old }
        ensures holds { OnOk result (Holds at size self.new) }
        ensures piece { IsTrue D.tells → IsPieceOf (D.view disk.new).contents self.new }
        ensures end { self.new.end ≡ self.old.end }
        ensures room { length self.old.bytes.items ≤ length self.new.bytes.items }
        ensures reads { OnlyReads D.Disk disk.old disk.new }
        ensures steady { IsTrue D.counts_failures
            → OnOk result ((D.view disk.new).faults ≡ (D.view disk.old).faults) }
        ensures cause { IfErr result (IsCaused D.counts_failures (D.view disk.old).faults
            (D.view disk.new).faults) }
    {
        if self.holds(at, size) {
            return Ok(());
        }
        self.read(disk, at, size)
    }

    // Whether they were read.
    fn holds(&self, at: u64, size: u64) -> bool
        requires at { at < self.now.end }
        requires size { size < 2 ^ 58 }
        ensures { IsTrue result → Holds at size self.now }
    {
        let last = self.start + self.filled as u64;
        self.start <= at && at < last && (at + size <= last || last == self.end)
    }

    // Reads a piece from this place on, and so many bytes at least. The window is empty where that fails.
    #[cold]
    #[inline(never)]
    fn read<D: Disk>(&mut self, disk: &mut D, at: u64, size: u64) -> Result<(), StoreFault>
        requires at { at < self.old.end }
        requires size { 0 < size }
        requires end { IsTrue D.tells → self.old.end ≡ length (D.view disk.old).contents }
        ensures holds { OnOk result (Holds at size self.new) }
        ensures piece { IsTrue D.tells → IsPieceOf (D.view disk.new).contents self.new }
        ensures end { self.new.end ≡ self.old.end }
        ensures room { length self.old.bytes.items ≤ length self.new.bytes.items }
        ensures reads { OnlyReads D.Disk disk.old disk.new }
        ensures steady { IsTrue D.counts_failures
            → OnOk result ((D.view disk.new).faults ≡ (D.view disk.old).faults) }
        ensures cause { IfErr result (IsCaused D.counts_failures (D.view disk.old).faults
            (D.view disk.new).faults) }
    {
        let size = (self.end - at).min(size.max(PIECE_BYTES)) as usize;
        self.filled = 0;
        self.make_room(size)?;
        fill(disk, at, &mut self.bytes, size)?;
        self.start = at;
        self.filled = size;
        Ok(())
    }

    // Makes the buffer as large as this, if it isn't.
    fn make_room(&mut self, size: usize) -> Result<(), AllocError>
        ensures size { OnOk result (size ≤ length self.new.bytes.items) }
        ensures room { length self.old.bytes.items ≤ length self.new.bytes.items }
        ensures filled { self.new.filled ≡ self.old.filled }
        ensures start { self.new.start ≡ self.old.start }
        ensures end { self.new.end ≡ self.old.end }
    {
        if size <= self.bytes.len() {
            return Ok(());
        }
        self.bytes.resize(size, 0)?;
        Ok(())
    }
}

// Reads so many bytes from this place on to the front of a buffer.
fn fill<D: Disk>(disk: &mut D, at: u64, buffer: &mut Vec<u8>, size: usize) -> Result<(), Trouble>
    requires room { size ≤ length buffer.old.items }
    requires inside { IsTrue D.tells → at + size ≤ length (D.view disk.old).contents }
    ensures bytes { IsTrue D.tells
        → OnOk result
        (take size buffer.new.items ≡ take size (drop at (D.view disk.old).contents)) }
    ensures room { length buffer.new.items ≡ length buffer.old.items }
    ensures reads { OnlyReads D.Disk disk.old disk.new }
    ensures cause { HasCause D.counts_failures D.takes_memory (D.view disk.old).faults
        (D.view disk.new).faults result }
{
    fill_front(disk, at, buffer.as_mut_slice(), size)
}

// The same of a slice.
fn fill_front<D: Disk>(disk: &mut D, at: u64, buffer: &mut [u8], size: usize) -> Result<(), Trouble>
    requires room { size ≤ length buffer.old }
    requires inside { IsTrue D.tells → at + size ≤ length (D.view disk.old).contents }
    ensures bytes { IsTrue D.tells
        → OnOk result (take size buffer.new ≡ take size (drop at (D.view disk.old).contents)) }
    ensures reads { OnlyReads D.Disk disk.old disk.new }
    ensures cause { HasCause D.counts_failures D.takes_memory (D.view disk.old).faults
        (D.view disk.new).faults result }
{
    disk.read_at(at, &mut buffer[..size])
}
