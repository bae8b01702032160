ghost use Rattle.std.specs.Prelude.{◌≡◌, ◌≤◌, ◌<◌, ◌+◌, ◌-◌, ◌^◌, ◌++◌, ◌||◌, ◌↔◌, length, take, drop, vec_len, true, false, IsTrue, IfOk, OnErr, IsErrOf};
ghost use Rattle.std.specs.List.{Contains};
ghost use Rattle.zb_outside.specs.Cause.{HasStreamCause};
ghost use Rattle.zb_outside.specs.Stream.{SourceView, tells_end};
ghost use Rattle.zb_outside.specs.declared.trouble.Trouble.TheVariants.{Failed};

use crate::source::tells_end;
use crate::{Source, Trouble};

/// A source in memory. It gives its bytes in pieces, and fails at the reads that were listed.
#[derive(Drop)]
pub struct MemSource {
    bytes: Vec<u8>,
    given: usize,
    ended: bool,
    piece: usize,
    fails: Vec<u64>,
    reads: u64,
    faults: u64,
    ghost within: { given ≤ length bytes.items },
    ghost over: { IsTrue ended → length bytes.items ≤ given },
    ghost some: { 0 < piece },
}

impl MemSource {
    ghost use Rattle.zb_outside.specs.Devices.{piece_of, failing_reads, reads_made};

    /// A source of these bytes that gives at most `piece` bytes a read, and fails at the reads with
    /// these numbers, which count from 0. A read that failed counts, and takes no bytes.
    pub fn new(bytes: Vec<u8>, piece: usize, fails: Vec<u64>) -> MemSource
        requires { 0 < piece }
        ensures view { ⟦<MemSource as Source>⟧.view result ≡ record { left = bytes.items; given = 0; ended = false; faults = 0 } }
        ensures piece { piece_of result ≡ piece }
        ensures fails { failing_reads result ≡ fails.items }
        ensures reads { reads_made result ≡ 0 }
    {
        MemSource {
            bytes,
            given: 0,
            ended: false,
            piece,
            fails,
            reads: 0,
            faults: 0,
        }
    }
}

impl Source for MemSource {
    ghost use Rattle.zb_outside.specs.Devices.{piece_of, failing_reads, reads_made};
    ghost use Rattle.std.proofs.Common.{rules};
    ghost use Rattle.std.proofs.lemmas.List.{drop_all};

    ghost view = { λ s. record { left = drop s.given s.bytes.items; given = s.given; ended = s.ended; faults = s.faults } };

    ghost tells = { true };

    ghost counts_failures = { true };

    ghost takes_memory = { false };

    fn read(&mut self, piece: &mut [u8]) -> Result<usize, Trouble>
        ensures fits { IfOk result (λ n. n ≤ length piece.new) }
        ensures given { IfOk result (λ n. self.new.given ≡ self.old.given + n) }
        ensures taken { IfOk result (λ n. drop self.old.given self.old.bytes.items ≡ take n piece.new ++ drop self.new.given self.new.bytes.items) }
        ensures ended { IfOk result (λ n. self.new.ended ≡ (self.old.ended || tells_end (length piece.new) n)) }
        ensures refused { OnErr result (self.new.given ≡ self.old.given) }
        ensures unended { OnErr result (self.new.ended ≡ self.old.ended) }
        ensures stays { self.new.bytes ≡ self.old.bytes }
        ensures cause { HasStreamCause true false self.old.faults self.new.faults result }
        ensures pieces { IfOk result (λ n. n ≤ piece_of self.old) }
        ensures listed { IsErrOf result Failed ↔ Contains (failing_reads self.old) (reads_made self.old) }
        ensures counted { reads_made self.old < 2 ^ 64 - 1 → reads_made self.new ≡ reads_made self.old + 1 }
        ensures same_piece { piece_of self.new ≡ piece_of self.old }
        ensures same_fails { failing_reads self.new ≡ failing_reads self.old }
    {
        let number = self.reads;
        self.reads = self.reads.saturating_add(1);
        if self.fails.contains(&number) {
            self.faults = self.faults.saturating_add(1);
            return Err(Trouble::Failed);
        }
        let left = self.bytes.len() - self.given;
        let count = left.min(self.piece).min(piece.len());
        let end = self.given + count;
        piece[..count].copy_from_slice(&self.bytes[self.given..end]);
        self.given = end;
        self.ended = self.ended || tells_end(piece.len(), count);
        Ok(count)
    }

    ghost bounded = { Prim.search rules };

    ghost over = { λ source told ended. drop_all source.given source.bytes.items (source.over ended) };
}
