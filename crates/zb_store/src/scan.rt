// Finding the frames in a file, one after the other.
ghost use Rattle.std.specs.Prelude.{◌≡◌, ◌<◌, ◌≤◌, ◌+◌, ◌^◌, ℕ, List, [], ◌∷◌, length, IsTrue, IsFalse, IfErr, IfOk, OnOk};
ghost use Rattle.zb_disk.specs.Disk.{Only};
ghost use Rattle.zb_store.specs.Cause.{IsCaused};
ghost use Rattle.zb_store.specs.Calls.{OnlyReads, OnlyOpens, IsAsOpened, Settles};
ghost use Rattle.zb_store.specs.Stands.{Stands, IsCutAfter};
ghost use Rattle.zb_store.specs.Window.{IsPieceOf};
ghost use Rattle.zb_store.specs.GateLog as gates;

use crate::fault::StoreFault;
use crate::gate_log::GateLog;
use crate::preparing::prepare;
use crate::step::Step;
use crate::window::Window;
use std::alloc::Global;
use zb_disk::Disk;

/// How many bytes lie before a body: its gate, and eight that tell its length.
pub const HEAD_BYTES: u64 = 9;

/// What is behind the frames of a log that were found.
#[derive(Clone, Copy, Debug, PartialEq, Eq)]
pub enum Found {
    /// One more frame, whose body is lent by `Scan::body`.
    Frame,
    /// The closed gate at the end of the log.
    End,
    /// An open gate whose frame runs past the end of the file.
    Cut,
}

/// A log that is being opened: its frames are found in the file one after the other. The file is read once, in
/// pieces of a fixed size, or of a frame's where that is larger; no more of it is kept in memory.
#[derive(Drop)]
pub struct Scan<D: Disk> {
    disk: D,
    limit: u64,
    window: Window,
    // The place of the gate behind the frames that were found, and how many these are.
    gate: u64,
    count: u64,
    // Where the last one's body lies in the window.
    from: usize,
    to: usize,
    over: bool,
    closed: bool,
    ghost small: { limit ≤ 2 ^ 32 },
    ghost inside: { gate < window.end },
    ghost counted: { count ≤ gate },
    ghost ordered: { from ≤ to },
    ghost within: { to ≤ length window.bytes.items },
    ghost going: { IsFalse over → IsFalse closed },
    ghost end: { IsTrue D.tells → window.end ≡ length (D.view disk).contents },
    ghost piece: { IsTrue D.tells → IsPieceOf (D.view disk).contents window },
    ghost begun: { IsTrue D.tells → length (D.view disk).contents ≤ 1
        → (D.view disk).contents ≡ 0 ∷ [] },
}

impl<D: Disk> Scan<D> {
    ghost use Rattle.zb_store.specs.Scan.{disk_of_scan, limit_of_scan, count_of_scan, gate_of_scan, body_found, is_over, is_closed, HasFound, GoesTo, IsFound, ends, closes, disk_behind};

    /// Begins with the first gate, once all that was written to the file is on the disk. A file of at most one
    /// byte becomes a closed gate; no other is changed.
    pub fn begin(alloc: Global, disk: D, limit: u64) -> Result<Scan<D>, (StoreFault, D)>
        requires { limit ≤ 2 ^ 32 }

        // No frame was found yet.
        ensures none { IsTrue D.tells
            → IfOk result (λ scan. HasFound (D.view (disk_of_scan scan)).contents scan []) }
        ensures count { IfOk result (λ scan. count_of_scan scan ≡ 0) }
        ensures gate { IfOk result (λ scan. gate_of_scan scan ≡ 0) }
        ensures going { IfOk result (λ scan. IsFalse (is_over scan)) }
        ensures limit { IfOk result (λ scan. limit_of_scan scan ≡ limit) }

        // What is to be found is on the disk, and a crash leaves nothing else.
        ensures durable { IsTrue D.tells_images
            → OnOk result
            (Only (D.view (disk_behind result)).contents (D.images (disk_behind result))) }

        // From the first call of the disk on a crash leaves the file as it was, or at most one byte of one that had no more.
        ensures settled { IsTrue D.tells_images
            → OnOk result (Settles (D.view disk).moment (D.view (disk_behind result)).moment
            (D.images disk) (D.since (disk_behind result)) (IsAsOpened (D.view disk).contents)) }

        // No frame is changed: the file stands for what it stood for, and so does what a crash at any moment since
        // leaves, if all that one before might have left does.
        ensures stood { IsTrue D.tells → (bodies : List (List ℕ))
            → Stands (D.view (disk_behind result)).contents bodies
            → OnOk result (Stands (D.view disk).contents bodies) }
        ensures was_cut { IsTrue D.tells → (bodies : List (List ℕ))
            → IsCutAfter (D.view (disk_behind result)).contents bodies
            → OnOk result (IsCutAfter (D.view disk).contents bodies) }
        ensures frames { IsTrue D.tells → (bodies : List (List ℕ))
            → Stands (D.view disk).contents bodies
            → Stands (D.view (disk_behind result)).contents bodies }
        ensures since { IsTrue D.tells_images → (bodies : List (List ℕ))
            → ((c : List ℕ) → D.images disk c → Stands c bodies)
            → (c : List ℕ) → D.since (disk_behind result) (D.view disk).moment c → Stands c bodies }
        ensures opens { OnlyOpens D.Disk disk (disk_behind result) }
        ensures short { IsTrue D.tells → length (D.view disk).contents ≤ 1
            → OnOk result ((D.view (disk_behind result)).contents ≡ 0 ∷ []) }
        ensures steady { IsTrue D.counts_failures
            → OnOk result ((D.view (disk_behind result)).faults ≡ (D.view disk).faults) }
        ensures cause { IfErr result (λ refused. IsCaused D.counts_failures (D.view disk).faults
            (D.view refused.1).faults refused.0) }
    {
        let mut disk = disk;
        match prepare(&mut disk) {
            Ok(end) => Ok(Scan {
                disk,
                limit,
                window: Window::new(alloc, end),
                gate: 0,
                count: 0,
                from: 0,
                to: 0,
                over: false,
                closed: false,
            }),
            Err(fault) => Err((fault, disk)),
        }
    }

    /// Finds what is behind the frames that were found. After an `Err` the scan is only good for its disk.
    pub fn advance(&mut self) -> Result<Found, StoreFault>
        requires { IsFalse (is_over self.old) }
        ensures found { IsTrue D.tells → (bodies : List (List ℕ))
            → HasFound (D.view (disk_of_scan self.old)).contents self.old bodies
            → IfOk result (IsFound (D.view (disk_of_scan self.new)).contents self.new bodies) }
        ensures goes { IfOk result (GoesTo self.old self.new) }
        ensures over { IfOk result (λ found. is_over self.new ≡ ends found) }
        ensures closed { IfOk result (λ found. is_closed self.new ≡ closes found) }
        ensures limit { limit_of_scan self.new ≡ limit_of_scan self.old }
        ensures small { gate_of_scan self.new < 2 ^ 58 }
        ensures reads { OnlyReads D.Disk (disk_of_scan self.old) (disk_of_scan self.new) }
        ensures steady { IsTrue D.counts_failures
            → OnOk result ((D.view (disk_of_scan self.new)).faults
            ≡ (D.view (disk_of_scan self.old)).faults) }
        ensures cause { IfErr result
            (IsCaused D.counts_failures (D.view (disk_of_scan self.old)).faults
            (D.view (disk_of_scan self.new)).faults) }
    {
        match self.window.step(&mut self.disk, self.gate)? {
            Step::Closed => {
                self.over = true;
                self.closed = true;
                Ok(Found::End)
            }
            Step::Cut => {
                self.over = true;
                Ok(Found::Cut)
            }
            Step::Next(next) => {
                self.go_on(next);
                Ok(Found::Frame)
            }
        }
    }

    // Goes on to the gate behind the frame in the window.
    fn go_on(&mut self, next: u64)
        requires behind { self.old.gate + 9 ≤ next }
        requires inside { next < self.old.window.end }
        requires begins { self.old.window.start ≤ self.old.gate }
        requires held { next ≤ self.old.window.start + self.old.window.filled }
        ensures disk { self.new.disk ≡ self.old.disk }
        ensures limit { self.new.limit ≡ self.old.limit }
        ensures window { self.new.window ≡ self.old.window }
        ensures gate { self.new.gate ≡ next }
        ensures count { self.new.count ≡ self.old.count + 1 }
        ensures from { self.old.window.start + self.new.from ≡ self.old.gate + 9 }
        ensures to { self.old.window.start + self.new.to ≡ next }
        ensures over { self.new.over ≡ self.old.over }
        ensures closed { self.new.closed ≡ self.old.closed }
    {
        self.from = (self.gate + HEAD_BYTES - self.window.start) as usize;
        self.to = (next - self.window.start) as usize;
        self.gate = next;
        self.count += 1;
    }

    /// The body of the frame that was found last.
    pub fn body(&self) -> &[u8]
        ensures { result.now ≡ body_found self.now }
    {
        &self.window.bytes[self.from..self.to]
    }

    /// How many frames were found.
    pub fn count(&self) -> u64
        ensures { result ≡ count_of_scan self.now }
    {
        self.count
    }

    /// Whether there are no more frames.
    pub fn over(&self) -> bool
        ensures { result ≡ is_over self.now }
    {
        self.over
    }

    // The log, all of whose frames that are left are found.
    pub(crate) fn run(self) -> Result<GateLog<D>, (StoreFault, D)>
        requires { IsFalse (is_over self) }
        ensures whole { IsTrue D.tells → (bodies : List (List ℕ))
            → HasFound (D.view (disk_of_scan self)).contents self bodies
            → IfOk result (λ log. IsTrue (gates.is_whole_log log) → (all : List (List ℕ))
            × gates.HasClosedFrames (D.view (gates.disk_of_log log)).contents log all) }
        ensures cut { IsTrue D.tells → (bodies : List (List ℕ))
            → HasFound (D.view (disk_of_scan self)).contents self bodies
            → IfOk result (λ log. IsFalse (gates.is_whole_log log) → (all : List (List ℕ))
            × IsCutAfter (D.view (gates.disk_of_log log)).contents all
            × gates.HasFrames (D.view (gates.disk_of_log log)).contents log all) }
        ensures limit { IfOk result (λ log. gates.limit_of_log log ≡ limit_of_scan self) }
        ensures sound { IfOk result (λ log. IsTrue (gates.is_sound log)) }
        ensures reads { OnlyReads D.Disk (disk_of_scan self) (gates.disk_after_log result) }
        ensures steady { IsTrue D.counts_failures
            → OnOk result ((D.view (gates.disk_after_log result)).faults
            ≡ (D.view (disk_of_scan self)).faults) }
        ensures cause { IfErr result
            (λ refused. IsCaused D.counts_failures (D.view (disk_of_scan self)).faults
            (D.view refused.1).faults refused.0) }
    {
        let mut scan = self;
        loop {
            match scan.advance() {
                Ok(Found::Frame) => {}
                Ok(Found::End) => return Ok(scan.finish()),
                Ok(Found::Cut) => return Ok(scan.finish()),
                Err(fault) => return Err((fault, scan.into_disk())),
            }
        }
    }

    /// The log, once there are no more frames.
    pub fn finish(self) -> GateLog<D>
        requires { IsTrue (is_over self) }
        ensures frames { IsTrue D.tells → (bodies : List (List ℕ))
            → HasFound (D.view (disk_of_scan self)).contents self bodies
            → gates.HasFrames (D.view (disk_of_scan self)).contents result bodies }
        ensures disk { gates.disk_of_log result ≡ disk_of_scan self }
        ensures limit { gates.limit_of_log result ≡ limit_of_scan self }
        ensures count { gates.count_of result ≡ count_of_scan self }
        ensures last { gates.last_gate_of result ≡ gate_of_scan self }
        ensures whole { gates.is_whole_log result ≡ is_closed self }
        ensures sound { IsTrue (gates.is_sound result) }
    {
        GateLog::over(self.disk, self.limit, self.count, self.gate, self.closed)
    }

    /// The disk that was scanned.
    pub fn into_disk(self) -> D
        ensures { result ≡ disk_of_scan self }
    {
        let Scan { disk, .. } = self;
        disk
    }
}
