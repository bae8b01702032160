ghost use Rattle.std.specs.Prelude.{◌≡◌, ◌<◌, ◌≤◌, ◌+◌, ◌^◌, ◌||◌, [], refl, true, false, length, take, IfOk, OnErr};
ghost use Rattle.std.specs.Io.KnownBytes.{Consumes, IsAtEnd};
ghost use Rattle.zb_outside.specs.Cause.{HasStreamCause};
ghost use Rattle.zb_outside.specs.Stream.{SourceView, tells_end};

use crate::source::tells_end;
use crate::{Source, Trouble};
use std::io::Read;

// How many bytes a source may not give: 2^63.
const TOO_MANY: u64 = 1 << 63;

/// A source over a reader of the standard library.
#[derive(Drop)]
pub struct StdSource<R> {
    reader: R,
    given: u64,
    ended: bool,
    faults: u64,
    ghost bounded: { given < 2 ^ 63 },
}

impl<R: Read> StdSource<R> {
    /// A source over this reader. It fails where the reader does, an interrupted read included, and
    /// where 2^63 bytes or more would have been given in all.
    pub fn new(reader: R) -> StdSource<R>
        ensures { ⟦<StdSource<R> as Source>⟧.view result ≡ record { left = []; given = 0; ended = false; faults = 0 } }
    {
        StdSource {
            reader,
            given: 0,
            ended: false,
            faults: 0,
        }
    }
}

impl<R: Read> Source for StdSource<R> {
    ghost view = { λ s. record { left = []; given = s.given; ended = s.ended; faults = s.faults } };

    ghost tells = { false };

    ghost counts_failures = { true };

    ghost takes_memory = { false };

    // Where std knows what the reader has left, the bytes that are given are the reader's next, and
    // none are given only at the reader's end.
    fn read(&mut self, piece: &mut [u8]) -> Result<usize, Trouble>
        ensures bytes { IfOk result (λ n. Consumes (R.remaining self.old.reader) (R.remaining self.new.reader) (take n piece.new)) }
        ensures end { IfOk result (λ n. n ≡ 0 → 0 < length piece.new → IsAtEnd (R.remaining self.new.reader)) }
        ensures fits { IfOk result (λ n. n ≤ length piece.new) }
        ensures given { IfOk result (λ n. self.new.given ≡ self.old.given + n) }
        ensures ended { IfOk result (λ n. self.new.ended ≡ (self.old.ended || tells_end (length piece.new) n)) }
        ensures refused { OnErr result (self.new.given ≡ self.old.given) }
        ensures unended { OnErr result (self.new.ended ≡ self.old.ended) }
        ensures cause { HasStreamCause true false self.old.faults self.new.faults result }
    {
        match self.reader.read(piece) {
            Ok(count) if (count as u64) < TOO_MANY - self.given => {
                self.given += count as u64;
                self.ended = self.ended || tells_end(piece.len(), count);
                Ok(count)
            }
            _ => {
                self.faults = self.faults.saturating_add(1);
                Err(Trouble::Failed)
            }
        }
    }

    ghost bounded = { λ s. s.bounded };

    ghost over = { λ s told ended. refl };
}
