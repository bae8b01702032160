ghost use Rattle.std.specs.Prelude.{◌≡◌, ◌≤◌, ◌<◌, [], true, false, length, take, IfOk};
ghost use Rattle.std.specs.Io.KnownBytes.{Appends, Keeps};
ghost use Rattle.zb_outside.specs.Stream.{SinkView};
ghost use Rattle.zb_outside.specs.Cause.{StreamFaultsRose, HasStreamCause};

use crate::{Sink, Trouble};
use std::io::Write;

/// A sink over a writer of the standard library.
#[derive(Drop)]
pub struct StdSink<W> {
    writer: W,
    faults: u64,
}

impl<W: Write> StdSink<W> {
    /// A sink over this writer. It fails where the writer does, an interrupted call included, and
    /// where the writer takes nothing of a piece that isn't empty.
    pub fn new(writer: W) -> StdSink<W>
        ensures { ⟦<StdSink<W> as Sink>⟧.view result ≡ record { written = []; faults = 0 } }
    {
        StdSink { writer, faults: 0 }
    }

    // Counts a fault.
    fn fail(&mut self) -> Trouble
        ensures failed { result ≡ Trouble.Failed }
        ensures rises { StreamFaultsRose self.old.faults self.new.faults }
        ensures later { self.old.faults ≤ self.new.faults }
        ensures stays { self.new.writer ≡ self.old.writer }
    {
        self.faults = self.faults.saturating_add(1);
        Trouble::Failed
    }
}

impl<W: Write> Sink for StdSink<W> {
    ghost view = { λ s. record { written = []; faults = s.faults } };

    ghost tells = { false };

    ghost counts_failures = { true };

    ghost takes_memory = { false };

    // Where std knows what the writer holds, it grows by the bytes that were taken.
    fn write(&mut self, piece: &[u8]) -> Result<usize, Trouble>
        ensures bytes { IfOk result (λ n. Appends (W.contents self.old.writer) (W.contents self.new.writer) (take n piece.now)) }
        ensures fits { IfOk result (λ n. n ≤ length piece.now) }
        ensures some { IfOk result (λ n. 0 < length piece.now → 0 < n) }
        ensures cause { HasStreamCause true false self.old.faults self.new.faults result }
    {
        match self.writer.write(piece) {
            Ok(count) if count > 0 || piece.is_empty() => Ok(count),
            _ => Err(self.fail()),
        }
    }

    fn flush(&mut self) -> Result<(), Trouble>
        ensures bytes { Keeps (W.contents self.old.writer) (W.contents self.new.writer) }
        ensures cause { HasStreamCause true false self.old.faults self.new.faults result }
    {
        match self.writer.flush() {
            Ok(()) => Ok(()),
            Err(_) => Err(self.fail()),
        }
    }
}
