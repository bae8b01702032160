ghost use Rattle.std.specs.Prelude.{◌≡◌, ◌⊎◌, ◌<◌, ◌≤◌, ◌+◌, ◌^◌, ℕ, List, [], ◌∷◌, ◌++◌, length, take, slice_get, IsTrue, IsFalse, IfErr, IfOk, IsErrOf, OnOk, OnErr};
ghost use Rattle.zb_disk.specs.Disk.{Only};
ghost use Rattle.zb_store.specs.Cause.{IsCaused};
ghost use Rattle.zb_store.specs.Calls.{LeavesFiles, OnlyReads, OnlyOpens, IsAsOpened, Settles};
ghost use Rattle.zb_store.specs.Log.{framed};
ghost use Rattle.zb_store.specs.Stands.{Leads, Stands, IsCutAfter, StandsWithOrWithout};

use crate::fault::StoreFault;
use crate::scan::{HEAD_BYTES, Scan};
use crate::walking::{gate_behind, read_part, walk};
use crate::writing::write_frame;
use std::alloc::Global;
use zb_disk::Disk;

/// The log in a file of a disk: frames, each behind a gate, up to the first gate that is closed. Nothing of a
/// frame is kept in memory.
#[derive(Drop)]
pub struct GateLog<D: Disk> {
    disk: D,
    limit: u64,
    count: u64,
    // The place of the last gate.
    last: u64,
    whole: bool,
    // Whether no append has failed but for want of room.
    sound: bool,
    // A frame by its number, and the place of its gate, from which later frames are found.
    near_frame: u64,
    near_gate: u64,
    ghost inside: { IsTrue D.tells → last < length (D.view disk).contents },
    ghost small: { limit ≤ 2 ^ 32 },
    ghost close: { last < 2 ^ 58 },
    ghost counted: { count ≤ last },
    ghost near_counted: { near_frame ≤ count },
    ghost near_inside: { near_gate ≤ last },
}

impl<D: Disk> GateLog<D> {
    ghost use Rattle.zb_store.specs.GateLog.{disk_of_log, limit_of_log, count_of, length_of, last_gate_of, is_whole_log, is_sound, HasFrames, HasClosedFrames, IsLogOf, IsSameLog, disk_after_log};
    ghost use Rattle.zb_store.specs.Append.{IsGrownBy, IsKeptOut, IsCausedBy};

    /// Opens the log in a file, once all that was written to it is on the disk, by a `Scan`. A file of at most one byte becomes a closed gate; no frame is changed.
    pub fn open(alloc: Global, disk: D, limit: u64) -> Result<GateLog<D>, (StoreFault, D)>
        requires { limit ≤ 2 ^ 32 }

        // Its frames are those that the file stood for. One that isn't whole has those before the cut.
        ensures whole { IsTrue D.tells → IfOk result (λ log. IsTrue (is_whole_log log)
            → (bodies : List (List ℕ)) × Stands (D.view disk).contents bodies
            × HasClosedFrames (D.view (disk_of_log log)).contents log bodies) }
        ensures cut { IsTrue D.tells → IfOk result (λ log. IsFalse (is_whole_log log)
            → (bodies : List (List ℕ)) × IsCutAfter (D.view disk).contents bodies
            × HasFrames (D.view (disk_of_log log)).contents log bodies) }
        ensures limit { IfOk result (λ log. limit_of_log log ≡ limit) }
        ensures sound { IfOk result (λ log. IsTrue (is_sound log)) }

        // No frame is changed: the file goes on to stand for the same bodies, and so does what a crash at any
        // moment since leaves, if all that one before might have left does.
        ensures frames { IsTrue D.tells → (bodies : List (List ℕ))
            → Stands (D.view disk).contents bodies
            → Stands (D.view (disk_after_log result)).contents bodies }
        ensures since { IsTrue D.tells_images → (bodies : List (List ℕ))
            → ((c : List ℕ) → D.images disk c → Stands c bodies)
            → (c : List ℕ) → D.since (disk_after_log result) (D.view disk).moment c
            → Stands c bodies }

        // What becomes of the file, and what a crash may leave of it at any moment.
        ensures opens { OnlyOpens D.Disk disk (disk_after_log result) }
        ensures gate { IsTrue D.tells → length (D.view disk).contents ≤ 1
            → OnOk result ((D.view (disk_after_log result)).contents ≡ 0 ∷ []) }
        ensures durable { IsTrue D.tells_images
            → OnOk result
            (Only (D.view (disk_after_log result)).contents (D.images (disk_after_log result))) }

        // From the first call of the disk on a crash leaves the file as it was, or at most one byte of one that had no more.
        ensures settled { IsTrue D.tells_images
            → OnOk result (Settles (D.view disk).moment (D.view (disk_after_log result)).moment
            (D.images disk) (D.since (disk_after_log result)) (IsAsOpened (D.view disk).contents)) }

        ensures later { (D.view disk).faults ≤ (D.view (disk_after_log result)).faults }
        ensures steady { IsTrue D.counts_failures
            → OnOk result ((D.view (disk_after_log result)).faults ≡ (D.view disk).faults) }
        ensures cause { IfErr result (λ refused. IsCaused D.counts_failures (D.view disk).faults
            (D.view refused.1).faults refused.0) }
    {
        match Scan::begin(alloc, disk, limit) {
            Ok(scan) => scan.run(),
            Err(refused) => Err(refused),
        }
    }

    // The log that was found on a disk: so many frames, and the gate behind them.
    pub(crate) fn over(disk: D, limit: u64, count: u64, last: u64, whole: bool) -> GateLog<D>
        requires inside { IsTrue D.tells → last < length (D.view disk).contents }
        requires small { limit ≤ 2 ^ 32 }
        requires close { last < 2 ^ 58 }
        requires counted { count ≤ last }
        ensures disk { disk_of_log result ≡ disk }
        ensures limit { limit_of_log result ≡ limit }
        ensures count { count_of result ≡ count }
        ensures last { last_gate_of result ≡ last }
        ensures whole { is_whole_log result ≡ whole }
        ensures sound { IsTrue (is_sound result) }
        ensures near_frame { result.near_frame ≡ 0 }
        ensures near_gate { result.near_gate ≡ 0 }
    {
        GateLog {
            disk,
            limit,
            count,
            last,
            whole,
            sound: true,
            near_frame: 0,
            near_gate: 0,
        }
    }

    /// How many frames it has. The frame behind an open gate that runs past the end of the file is none.
    pub fn count(&self) -> u64
        ensures { result ≡ count_of self.now }
    {
        self.count
    }

    /// Its length in bytes up to the last gate, this one included.
    pub fn length(&self) -> u64
        ensures length { result ≡ length_of self.now }
        ensures small { result ≤ 2 ^ 58 }
    {
        self.last + 1
    }

    /// How many bytes it may have.
    pub fn limit(&self) -> u64
        ensures { result ≡ limit_of_log self.now }
    {
        self.limit
    }

    /// Whether the last gate is closed. Where it isn't, its frame runs past the end of the file.
    pub fn whole(&self) -> bool
        ensures { result ≡ is_whole_log self.now }
    {
        self.whole
    }

    /// Whether no append has failed but for want of room.
    pub fn sound(&self) -> bool
        ensures { result ≡ is_sound self.now }
    {
        self.sound
    }

    /// Reads the body of the frame with this number, from 0. After an `Err` any bytes may be in `body`. It
    /// costs a read of the disk for each frame that lies before it, behind the one that was read last where that
    /// isn't later.
    pub fn frame(&mut self, i: u64, body: &mut Vec<u8>) -> Result<(), StoreFault>
        requires { i < count_of self.old }
        ensures body { IsTrue D.tells → (bodies : List (List ℕ))
            → HasFrames (D.view (disk_of_log self.old)).contents self.old bodies
            → OnOk result (slice_get bodies i ≡ Some body.new.items) }
        ensures kept { IsTrue D.tells → (bodies : List (List ℕ))
            → HasFrames (D.view (disk_of_log self.old)).contents self.old bodies
            → HasFrames (D.view (disk_of_log self.new)).contents self.new bodies }
        ensures kept_log { IsTrue D.tells → (bodies : List (List ℕ))
            → HasClosedFrames (D.view (disk_of_log self.old)).contents self.old bodies
            → HasClosedFrames (D.view (disk_of_log self.new)).contents self.new bodies }
        ensures same { IsSameLog self.old self.new }
        ensures reads { OnlyReads D.Disk (disk_of_log self.old) (disk_of_log self.new) }
        ensures sound { is_sound self.new ≡ is_sound self.old }
        ensures steady { IsTrue D.counts_failures
            → OnOk result
            ((D.view (disk_of_log self.new)).faults ≡ (D.view (disk_of_log self.old)).faults) }
        ensures cause { IfErr result
            (IsCaused D.counts_failures (D.view (disk_of_log self.old)).faults
            (D.view (disk_of_log self.new)).faults) }
    {
        let near = self.near(i);
        let gate = walk(&mut self.disk, near, i, self.last)?;
        let next = gate_behind(&mut self.disk, gate, self.last)?;
        self.near_frame = i;
        self.near_gate = gate;
        read_part(&mut self.disk, gate + HEAD_BYTES, next, body)
    }

    /// Adds a frame: the length of a body in eight bytes, the body and a closed gate. That is one write
    /// behind the closed gate at the end, a sync, 1 on that gate, and a sync. It makes no copy of the bytes, and
    /// wants no memory where the disk takes none.
    pub fn append(&mut self, frame: &[u8]) -> Result<(), StoreFault>
        requires form { (body : List ℕ) × (frame.now ≡ framed body) }
        requires whole { IsTrue (is_whole_log self.old) }
        requires sound { IsTrue (is_sound self.old) }
        ensures grown { OnOk result (IsGrownBy frame.now self.old self.new) }
        ensures kept_out { IfErr result (λ fault. IsKeptOut frame.now fault self.old self.new) }
        ensures over { limit_of_log self.old < length_of self.old + length frame.now → result
            ≡ Err (StoreFault.LogFull (length_of self.old) (length frame.now)
            (limit_of_log self.old)) }
        ensures whole { IsTrue (is_whole_log self.new) }
        ensures cause { IsCausedBy D.Disk (disk_of_log self.old) (disk_of_log self.new) result }

        // A log that has these bodies has one more, and refused or not it leaves a file that stands for those, or for
        // them with this one.
        ensures added { (bodies : List (List ℕ)) (body : List ℕ) → IsLogOf bodies self.old
            → frame.now ≡ framed body → OnOk result (IsLogOf (bodies ++ body ∷ []) self.new) }
        ensures left { (bodies : List (List ℕ)) (body : List ℕ) → IsLogOf bodies self.old
            → frame.now ≡ framed body
            → LeavesFiles D.Disk (disk_of_log self.old) (disk_of_log self.new)
            (StandsWithOrWithout bodies body) }
    {
        let gate = self.last;
        let size = frame.len() as u64;
        if gate + 1 + size > self.limit {
            return Err(StoreFault::LogFull {
                length: gate + 1,
                frame: size,
                limit: self.limit,
            });
        }
        match write_frame(&mut self.disk, gate, frame) {
            Ok(()) => {
                self.go_on(gate + size);
                Ok(())
            }
            Err(trouble) => {
                self.sound = false;
                Err(StoreFault::from(trouble))
            }
        }
    }

    /// The disk that it lies on.
    pub fn into_disk(self) -> D
        ensures { result ≡ disk_of_log self }
    {
        let GateLog {
            disk,
            limit: _,
            count: _,
            last: _,
            whole: _,
            sound: _,
            near_frame: _,
            near_gate: _,
        } = self;
        disk
    }

    // The number of a frame up to this one, and its gate, which is known.
    fn near(&self, i: u64) -> (u64, u64)
        ensures frame { result.0 ≤ i }
        ensures gate { result.1 ≤ last_gate_of self.now }
        ensures leads { (file : List ℕ) (bodies : List (List ℕ)) → HasFrames file self.now bodies
            → Leads file 0 (take result.0 bodies) result.1 }
    {
        if self.near_frame <= i {
            return (self.near_frame, self.near_gate);
        }
        (0, 0)
    }

    // Goes on to the gate behind one frame more.
    fn go_on(&mut self, next: u64)
        requires apart { self.old.last + 9 ≤ next }
        requires small { next < 2 ^ 58 }
        requires inside { IsTrue D.tells → next < length (D.view self.old.disk).contents }
        ensures disk { self.new.disk ≡ self.old.disk }
        ensures limit { self.new.limit ≡ self.old.limit }
        ensures count { self.new.count ≡ self.old.count + 1 }
        ensures last { self.new.last ≡ next }
        ensures whole { self.new.whole ≡ self.old.whole }
        ensures sound { self.new.sound ≡ self.old.sound }
        ensures near_frame { self.new.near_frame ≡ self.old.near_frame }
        ensures near_gate { self.new.near_gate ≡ self.old.near_gate }
    {
        self.count += 1;
        self.last = next;
    }
}
