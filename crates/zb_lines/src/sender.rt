ghost use Rattle.std.specs.Prelude.{◌≡◌, ◌++◌, ℕ, IsTrue, OnOk, OnErr, take};
ghost use Rattle.zb_outside.specs.Cause.{HasStreamCause};

use zb_outside::{Sink, Trouble};

/// Writes all the bytes, and hands on what the sink kept back. After an `Err` a front of the bytes was
/// written. One call of the sink for each part that it takes, and a flush.
pub fn send<K: Sink>(sink: &mut K, bytes: &[u8]) -> Result<(), Trouble>
    ensures sent { IsTrue K.tells → OnOk result ((K.view sink.new).written ≡ (K.view sink.old).written ++ bytes.now) }
    ensures part { IsTrue K.tells → OnErr result ((n : ℕ) × ((K.view sink.new).written ≡ (K.view sink.old).written ++ take n bytes.now)) }
    ensures cause { HasStreamCause K.counts_failures K.takes_memory (K.view sink.old).faults (K.view sink.new).faults result }
{
    let mut sent = 0;
    while sent < bytes.len() {
        match sink.write(&bytes[sent..]) {
            Err(trouble) => return Err(trouble),
            Ok(count) => sent += count,
        }
    }
    sink.flush()
}
