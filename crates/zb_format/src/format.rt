ghost use Rattle.std.specs.Prelude.{◌≡◌, ◌-◌, ◌^◌, ◌<◌, ◌≤◌, ◌++◌, length, min, IsOk, OnOk, OnErr};
ghost use Rattle.zb_format.specs.Encoded.{Adds, KeepsEncoded, IsCounting};
ghost use Rattle.zb_format.specs.Layout.{Layout};
ghost use Rattle.zb_format.specs.Reading.{Reads};

use crate::{Cursor, Encoder, ReadFault};
use std::alloc::{AllocError, Global};
use std::mem;

/// What is stored as bytes.
pub trait Format: Drop {
    /// How a value stands in bytes.
    ghost layout: { Layout Self };

    /// Adds its spelling. After a refusal a part of it may stand behind what was there before.
    fn write(&self, encoder: &mut Encoder) -> Result<(), AllocError>
        ensures added { OnOk result (Adds encoder.old (layout.spelling self.now) encoder.new) }
        ensures kept { KeepsEncoded encoder.old encoder.new }
        ensures counts { IsCounting encoder.old → IsOk result }
        ensures some { OnOk result (1 ≤ length (layout.spelling self.now)) }
        ensures fits { OnOk result (length (layout.spelling self.now) < 2 ^ 32 → layout.fits self.now) };

    /// Reads one from the front of the bytes.
    fn read(alloc: Global, cursor: &mut Cursor<'_>) -> Result<Self, ReadFault>
        ensures { Reads (layout.reading cursor.old) result cursor.new };
}

/// How many bytes the spelling of a value has, at most the greatest `u64`. It takes a step for each part of the value.
#[tactic(auto, unfolding(crate::specs::Encoded::Adds, crate::specs::Encoded::IsCounting))]
pub fn size<T: Format>(value: &T) -> u64
    ensures size { result ≡ min (length (T.layout.spelling value.now)) (2 ^ 64 - 1) }
    ensures some { 1 ≤ result }
    ensures fits { length (T.layout.spelling value.now) < 2 ^ 32 → T.layout.fits value.now }
{
    let mut encoder = Encoder::Count(0);
    match (value.write(&mut encoder), encoder) {
        (Ok(()), Encoder::Count(count)) => count,
        _ => 1,
    }
}

/// Appends the spelling of a value. After a refusal `bytes` is as before. It takes a step for each byte.
#[tactic(auto, unfolding(crate::specs::Encoded::Adds))]
pub fn append<T: Format>(value: &T, bytes: &mut Vec<u8>) -> Result<(), AllocError>
    ensures ok { OnOk result (bytes.new.items ≡ bytes.old.items ++ T.layout.spelling value.now) }
    ensures err { OnErr result (bytes.new.items ≡ bytes.old.items) }
    ensures fits { OnOk result (length (T.layout.spelling value.now) < 2 ^ 32 → T.layout.fits value.now) }
{
    let before = bytes.len();
    let alloc = *bytes.allocator();
    let mut encoder = Encoder::Bytes(mem::replace(bytes, Vec::new(alloc)));
    match (value.write(&mut encoder), encoder) {
        (Ok(()), Encoder::Bytes(held)) => {
            *bytes = held;
            Ok(())
        }
        (Err(refusal), Encoder::Bytes(mut held)) => {
            held.truncate(before);
            *bytes = held;
            Err(refusal)
        }
        (written, Encoder::Count(_)) => written,
    }
}
