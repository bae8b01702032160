ghost use Rattle.std.specs.Prelude.{◌≡◌, ◌<◌, ◌≤◌, ◌+◌, ◌^◌, ℕ, List, Bool, IsTrue, length, slice_range, IfOk, OnOk, OnErr};
ghost use Rattle.zb_disk.specs.Disk.{DiskView, overwritten, Torn, Follows, Only, Elapses};
ghost use Rattle.zb_disk.specs.Cause.{HasCause};
ghost use Rattle.zb_disk.specs.declared.disk.Trouble.TheVariants.{Memory};

use std::alloc::{AllocError, AllocFailed};
use thiserror::Error;

/// Why a call of a disk was refused.
#[derive(Clone, Copy, Debug, PartialEq, Eq, Error)]
pub enum Trouble {
    /// The disk failed, and its count of faults rose.
    #[error("the disk failed")]
    Failed,
    /// There was no memory.
    #[error("there was no memory")]
    Memory,
}

impl From<AllocError> for Trouble {
    ghost from_gives = { λ _ trouble. trouble ≡ Memory };

    fn from(_: AllocError) -> Self {
        Trouble::Memory
    }
}

impl<T: Drop> From<AllocFailed<T>> for Trouble {
    ghost from_gives = { λ _ trouble. trouble ≡ Memory };

    fn from(_: AllocFailed<T>) -> Self {
        Trouble::Memory
    }
}

/// A file on a disk, as a list of bytes. Between two syncs a crash may leave any bytes where a write
/// went, and any length between the old and the new one; other bytes stay. A read gives what a crash
/// could leave, too. After a sync that succeeded a crash leaves what a read gives. A disk's moment is a
/// number of calls that it made so far, of which it may leave out some: no call takes it on by more than one.
pub trait Disk {
    /// The disk as plain data: its contents as read, its count of faults, its moment.
    ghost view: { Self → DiskView };

    /// Whether the contents are told.
    ghost tells: { Bool };

    /// Whether the images, what a crash may leave, are told, and the contents with them.
    ghost tells_images: { Bool };

    /// Whether the count of faults rises only where a call fails.
    ghost counts_failures: { Bool };

    /// Whether a call may be refused for want of memory.
    ghost takes_memory: { Bool };

    /// What a crash now may leave.
    ghost images: { Self → List ℕ → Type 0 };

    /// What a crash at some moment from this one on might have left.
    ghost since: { Self → ℕ → List ℕ → Type 0 };

    /// The length in bytes, below 2^58.
    fn len(&mut self) -> Result<u64, Trouble>
        ensures length { IsTrue tells → IfOk result (λ n. n ≡ length (view self.old).contents) }
        ensures small { IfOk result (λ n. n < 2 ^ 58) }
        ensures same { IsTrue tells → (view self.new).contents ≡ (view self.old).contents }
        ensures cause { HasCause counts_failures takes_memory (view self.old).faults (view self.new).faults result }
        ensures crash { IsTrue tells_images → (c : List ℕ) → images self.new c → images self.old c }
        ensures time { IsTrue tells_images → Elapses (view self.old).moment (view self.new).moment (since self.old) (since self.new) (images self.new) };

    /// Fills the piece with the bytes from `at` on.
    fn read_at(&mut self, at: u64, piece: &mut [u8]) -> Result<(), Trouble>
        requires { IsTrue tells → at + length piece.old ≤ length (view self.old).contents }
        ensures bytes { IsTrue tells → OnOk result (piece.new ≡ slice_range (view self.old).contents at (at + length piece.old)) }
        ensures same { IsTrue tells → (view self.new).contents ≡ (view self.old).contents }
        ensures cause { HasCause counts_failures takes_memory (view self.old).faults (view self.new).faults result }
        ensures crash { IsTrue tells_images → (c : List ℕ) → images self.new c → images self.old c }
        ensures time { IsTrue tells_images → Elapses (view self.old).moment (view self.new).moment (since self.old) (since self.new) (images self.new) };

    /// Writes the piece from `at` on, over what is there and past the end.
    fn write_at(&mut self, at: u64, piece: &[u8]) -> Result<(), Trouble>
        requires inside { IsTrue tells → at ≤ length (view self.old).contents }
        requires end { at + length piece.now < 2 ^ 58 }
        ensures written { IsTrue tells → OnOk result ((view self.new).contents ≡ overwritten (view self.old).contents at piece.now) }
        ensures torn { IsTrue tells → OnErr result (Torn at (length piece.now) (view self.old).contents (view self.new).contents) }
        ensures cause { HasCause counts_failures takes_memory (view self.old).faults (view self.new).faults result }
        ensures crash { IsTrue tells_images → Follows (Torn at (length piece.now)) (images self.old) (images self.new) }
        ensures time { IsTrue tells_images → Elapses (view self.old).moment (view self.new).moment (since self.old) (since self.new) (images self.new) };

    /// Brings all that was written onto the disk.
    fn sync(&mut self) -> Result<(), Trouble>
        ensures durable { IsTrue tells_images → OnOk result (Only (view self.new).contents (images self.new)) }
        ensures same { IsTrue tells → (view self.new).contents ≡ (view self.old).contents }
        ensures cause { HasCause counts_failures takes_memory (view self.old).faults (view self.new).faults result }
        ensures crash { IsTrue tells_images → (c : List ℕ) → images self.new c → images self.old c }
        ensures time { IsTrue tells_images → Elapses (view self.old).moment (view self.new).moment (since self.old) (since self.new) (images self.new) };

    /// A disk that tells its images tells its contents.
    ghost images_told: { IsTrue tells_images → IsTrue tells };

    /// What a read gives, a crash could leave.
    ghost reads_image: { (disk : Self) → IsTrue tells_images → images disk (view disk).contents };

    /// This moment is one of those since an earlier one.
    ghost counts_now: { (disk : Self) (t : ℕ) (c : List ℕ) → IsTrue tells_images → t ≤ (view disk).moment → images disk c → since disk t c };

    /// Since this moment there is no other.
    ghost only_now: { (disk : Self) (c : List ℕ) → IsTrue tells_images → since disk (view disk).moment c → images disk c };
}
