ghost use Rattle.std.specs.Prelude.{◌≡◌, ◌<◌, ◌+◌, ◌-◌, ◌^◌, ◌++◌, ◌↔◌, [], true, false, length, IfOk, OnErr, IsErrOf};
ghost use Rattle.std.specs.List.{Contains};
ghost use Rattle.zb_outside.specs.Stream.{SinkView};
ghost use Rattle.zb_outside.specs.Cause.{HasStreamCause};
ghost use Rattle.zb_outside.specs.declared.trouble.Trouble.TheVariants.{Failed};

use crate::{Sink, Trouble};
use std::alloc::{AllocError, Global};

/// A sink in memory. It keeps what is written, and fails at the calls that were listed.
#[derive(Drop)]
pub struct MemSink {
    bytes: Vec<u8>,
    fails: Vec<u64>,
    calls: u64,
    faults: u64,
}

impl MemSink {
    ghost use Rattle.zb_outside.specs.Devices.{failing_calls, calls_made};

    /// A sink with no bytes yet that fails at the calls with these numbers. Writes and flushes are
    /// counted together, from 0. A call that failed counts, and writes nothing.
    pub fn new(alloc: Global, fails: Vec<u64>) -> MemSink
        ensures view { ⟦<MemSink as Sink>⟧.view result ≡ record { written = []; faults = 0 } }
        ensures fails { failing_calls result ≡ fails.items }
        ensures calls { calls_made result ≡ 0 }
    {
        MemSink {
            bytes: Vec::new(alloc),
            fails,
            calls: 0,
            faults: 0,
        }
    }

    /// What was written.
    pub fn bytes(&self) -> &[u8]
        ensures { result.now ≡ (⟦<MemSink as Sink>⟧.view self.now).written }
    {
        &self.bytes
    }

    // Counts a call, and fails where it was listed.
    fn begin(&mut self) -> Result<(), Trouble>
        ensures stays { self.new.bytes ≡ self.old.bytes }
        ensures cause { HasStreamCause true false self.old.faults self.new.faults result }
        ensures listed { IsErrOf result Failed ↔ Contains (failing_calls self.old) (calls_made self.old) }
        ensures counted { calls_made self.old < 2 ^ 64 - 1 → calls_made self.new ≡ calls_made self.old + 1 }
        ensures same_fails { failing_calls self.new ≡ failing_calls self.old }
    {
        let number = self.calls;
        self.calls = self.calls.saturating_add(1);
        if self.fails.contains(&number) {
            self.faults = self.faults.saturating_add(1);
            return Err(Trouble::Failed);
        }
        Ok(())
    }
}

impl Sink for MemSink {
    ghost use Rattle.zb_outside.specs.Devices.{failing_calls, calls_made};

    ghost view = { λ s. record { written = s.bytes.items; faults = s.faults } };

    ghost tells = { true };

    ghost counts_failures = { true };

    ghost takes_memory = { true };

    // It takes the whole piece.
    fn write(&mut self, piece: &[u8]) -> Result<usize, Trouble>
        ensures whole { IfOk result (λ n. n ≡ length piece.now) }
        ensures written { IfOk result (λ _. self.new.bytes.items ≡ self.old.bytes.items ++ piece.now) }
        ensures stays { OnErr result (self.new.bytes.items ≡ self.old.bytes.items) }
        ensures cause { HasStreamCause true true self.old.faults self.new.faults result }
        ensures listed { IsErrOf result Failed ↔ Contains (failing_calls self.old) (calls_made self.old) }
        ensures counted { calls_made self.old < 2 ^ 64 - 1 → calls_made self.new ≡ calls_made self.old + 1 }
        ensures same_fails { failing_calls self.new ≡ failing_calls self.old }
    {
        if let Err(trouble) = self.begin() {
            return Err(trouble);
        }
        match self.bytes.extend_from_slice(piece) {
            Ok(()) => Ok(piece.len()),
            Err(AllocError) => Err(Trouble::Memory),
        }
    }

    // A flush wants no memory.
    fn flush(&mut self) -> Result<(), Trouble>
        ensures stays { self.new.bytes ≡ self.old.bytes }
        ensures cause { HasStreamCause true false self.old.faults self.new.faults result }
        ensures listed { IsErrOf result Failed ↔ Contains (failing_calls self.old) (calls_made self.old) }
        ensures counted { calls_made self.old < 2 ^ 64 - 1 → calls_made self.new ≡ calls_made self.old + 1 }
        ensures same_fails { failing_calls self.new ≡ failing_calls self.old }
    {
        self.begin()
    }
}
