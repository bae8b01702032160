ghost use Rattle.std.specs.Prelude.{◌≡◌, ◌<◌, ◌≤◌, ◌+◌, ◌^◌, ◌++◌, Bool, IsTrue, length, take, IfOk, OnErr, ◌||◌, []};
ghost use Rattle.zb_outside.specs.Stream.{SourceView, tells_end};
ghost use Rattle.zb_outside.specs.Cause.{HasStreamCause};

use crate::Trouble;

/// Bytes that are read in order.
pub trait Source {
    /// The source as plain data: the bytes that are left, how many it has given, whether it has told its
    /// end, its count of faults.
    ghost view: { Self → SourceView };

    /// Whether the bytes that are left are told.
    ghost tells: { Bool };

    /// Whether the count of faults rises only where a call fails.
    ghost counts_failures: { Bool };

    /// Whether a call may be refused for want of memory.
    ghost takes_memory: { Bool };

    /// Takes bytes from the front of what is left, fills the front of the piece with them, and answers
    /// how many. It answers 0 for a piece that isn't empty exactly at the end. After a refusal none
    /// were taken. A source fails before it has given 2^63 bytes.
    fn read(&mut self, piece: &mut [u8]) -> Result<usize, Trouble>
        ensures fits { IfOk result (λ n. n ≤ length piece.new) }
        ensures given { IfOk result (λ n. (view self.new).given ≡ (view self.old).given + n) }
        ensures taken { IsTrue tells → IfOk result (λ n. (view self.old).left ≡ take n piece.new ++ (view self.new).left) }
        ensures ended { IfOk result (λ n. (view self.new).ended ≡ ((view self.old).ended || tells_end (length piece.new) n)) }
        ensures refused { OnErr result ((view self.new).given ≡ (view self.old).given) }
        ensures unended { OnErr result ((view self.new).ended ≡ (view self.old).ended) }
        ensures stays { IsTrue tells → OnErr result ((view self.new).left ≡ (view self.old).left) }
        ensures cause { HasStreamCause counts_failures takes_memory (view self.old).faults (view self.new).faults result };

    /// A source fails before it has given 2^63 bytes.
    ghost bounded: { (source : Self) → (view source).given < 2 ^ 63 };

    /// A source that has told its end has nothing left.
    ghost over: { (source : Self) → IsTrue tells → IsTrue (view source).ended → (view source).left ≡ [] };
}

// Whether a read that gave so many bytes for a piece with so much room tells the end.
pub(crate) fn tells_end(room: usize, count: usize) -> bool
    ensures { result ≡ tells_end room count }
{
    room > 0 && count == 0
}
