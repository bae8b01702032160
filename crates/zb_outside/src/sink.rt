ghost use Rattle.std.specs.Prelude.{◌≡◌, ◌<◌, ◌≤◌, ◌++◌, Bool, IsTrue, length, take, IfOk, OnErr};
ghost use Rattle.zb_outside.specs.Stream.{SinkView};
ghost use Rattle.zb_outside.specs.Cause.{HasStreamCause};

use crate::Trouble;

/// Where bytes are written in order.
pub trait Sink {
    /// The sink as plain data: the bytes that were written, its count of faults.
    ghost view: { Self → SinkView };

    /// Whether the bytes that were written are told.
    ghost tells: { Bool };

    /// Whether the count of faults rises only where a call fails.
    ghost counts_failures: { Bool };

    /// Whether a call may be refused for want of memory.
    ghost takes_memory: { Bool };

    /// Appends bytes of the piece's front, and answers how many; of a piece that isn't empty at least
    /// one. After a refusal none were written.
    fn write(&mut self, piece: &[u8]) -> Result<usize, Trouble>
        ensures fits { IfOk result (λ n. n ≤ length piece.now) }
        ensures some { IfOk result (λ n. 0 < length piece.now → 0 < n) }
        ensures written { IsTrue tells → IfOk result (λ n. (view self.new).written ≡ (view self.old).written ++ take n piece.now) }
        ensures stays { IsTrue tells → OnErr result ((view self.new).written ≡ (view self.old).written) }
        ensures cause { HasStreamCause counts_failures takes_memory (view self.old).faults (view self.new).faults result };

    /// Hands on what the sink has kept back.
    fn flush(&mut self) -> Result<(), Trouble>
        ensures stays { IsTrue tells → (view self.new).written ≡ (view self.old).written }
        ensures cause { HasStreamCause counts_failures takes_memory (view self.old).faults (view self.new).faults result };
}
