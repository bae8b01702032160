// One step from a gate to the next.
ghost use Rattle.std.specs.Prelude.{◌≡◌, ◌<◌, ◌≤◌, ◌+◌, ◌^◌, ℕ, List, length};
ghost use Rattle.std.specs.Int.{w64, from_be_bytes};
ghost use Rattle.zb_store.specs.Step.{IsAtGate, LiesBehind, AreFrom};

use crate::scan::HEAD_BYTES;

/// What stands at a gate.
pub enum Step {
    /// The gate is closed.
    Closed,
    /// The gate is open, and its frame runs past the end of the file.
    Cut,
    /// The gate is open, and the gate behind its frame is here.
    Next(u64),
}

/// What stands at the gate at `at`, with which these bytes of a file begin. They go on to the end of the
/// file, or as far as the body.
pub fn step_at(bytes: &[u8], at: u64, end: u64) -> Step
    requires some { 0 < length bytes.now }
    requires inside { at + length bytes.now ≤ end }
    requires enough { length bytes.now < 9 → at + length bytes.now ≡ end }
    requires small { end < 2 ^ 58 }
    ensures step { (file : List ℕ) → length file ≡ end → AreFrom file at bytes.now
        → IsAtGate file at result }
    ensures behind { LiesBehind at end result }
{
    if bytes[0] == 0 {
        return Step::Closed;
    }
    if bytes.len() < 9 {
        return Step::Cut;
    }
    let size = number(&bytes[1..9]);
    if size >= end - at - HEAD_BYTES {
        return Step::Cut;
    }
    Step::Next(at + HEAD_BYTES + size)
}

// The number that eight bytes spell, highest first.
fn number(bytes: &[u8]) -> u64
    requires { length bytes.now ≡ 8 }
    ensures { result ≡ from_be_bytes w64 bytes.now }
{
    let mut number = [0; 8];
    number.copy_from_slice(bytes);
    u64::from_be_bytes(number)
}
