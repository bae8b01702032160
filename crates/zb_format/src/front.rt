ghost use Rattle.std.specs.Prelude.{◌≡◌, ◌∷◌, ◌++◌, ◌^◌, ◌<◌, length, IsOk, OnOk};
ghost use Rattle.zb_format.specs.Encoded.{Adds, KeepsEncoded, IsCounting};
ghost use Rattle.zb_format.specs.Field as fields;
ghost use Rattle.zb_format.specs.Front as fronts;

use crate::{Encoder, Format};
use std::alloc::AllocError;

// Appends bytes. After a refusal what was there before is there still.
#[inline(always)]
#[tactic(auto, using(crate::proofs::PieceLemmas::appended))]
pub fn append(piece: &[u8], bytes: &mut Vec<u8>) -> Result<(), AllocError>
    ensures ok { OnOk result (bytes.new.items ≡ bytes.old.items ++ piece.now) }
    ensures kept { fronts.Keeps bytes.old.items bytes.new.items }
{
    bytes.extend_from_slice(piece)
}

/// Adds the low four bytes of a length, which are all of one below 2^32.
#[tactic(auto, using(crate::proofs::PieceLemmas::low_bytes), unfolding(crate::specs::Field::number_bytes))]
pub fn write_count(length: usize, encoder: &mut Encoder) -> Result<(), AllocError>
    ensures added { OnOk result (Adds encoder.old (fields.number_bytes length) encoder.new) }
    ensures kept { KeepsEncoded encoder.old encoder.new }
    ensures counts { IsCounting encoder.old → IsOk result }
{
    encoder.add(&((length % 0x1_0000_0000) as u32).to_be_bytes())
}

/// Adds a byte for the kind of a value, and the value.
#[tactic(auto, using(crate::proofs::Adding::pieces))]
pub fn write_tagged<T: Format>(tag: u8, value: &T, encoder: &mut Encoder) -> Result<(), AllocError>
    ensures added { OnOk result (Adds encoder.old (tag ∷ T.layout.spelling value.now) encoder.new) }
    ensures kept { KeepsEncoded encoder.old encoder.new }
    ensures counts { IsCounting encoder.old → IsOk result }
    ensures fits { OnOk result (length (T.layout.spelling value.now) < 2 ^ 32 → T.layout.fits value.now) }
{
    encoder.add(&[tag])?;
    value.write(encoder)
}
