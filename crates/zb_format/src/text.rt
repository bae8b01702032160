// Reading a text where it stands.
ghost use Rattle.std.specs.Prelude.{◌≡◌, Some, None, IfOk, IfErr, IsTrue, IsAscii};
ghost use Rattle.std.specs.Str.{is_utf8};
ghost use Rattle.zb_format.specs.declared.fault.ReadFault.TheVariants.{NotSpelled};
ghost use Rattle.zb_format.specs.Reading.{ReadsAs, passed, text_at};

use crate::{Cursor, ReadFault};

/// The text at the front of the bytes, lent by them.
#[tactic(auto, using(crate::proofs::TextLemmas::texts), unfolding(crate::specs::Reading::text_at))]
pub fn read_str<'a>(cursor: &mut Cursor<'a>) -> Result<&'a str, ReadFault>
    ensures { ReadsAs (λ text. text.now) (text_at cursor.old) result cursor.new }
{
    let length = cursor.number()?;
    if length == 0 {
        return Ok("");
    }
    let front = cursor.front(length as usize)?;
    // ASCII is UTF-8, and the check demands that here.
    if is_short_ascii(front) {
        return Ok(unsafe { str::from_utf8_unchecked(front) });
    }
    judged(front)
}

// The text of these bytes, where they are UTF-8. It stands apart, so that a short text of ASCII costs little.
#[inline(never)]
#[tactic(auto, using(crate::proofs::TextLemmas::texts))]
fn judged(bytes: &[u8]) -> Result<&str, ReadFault>
    ensures ok { IfOk result (λ text. passed is_utf8 bytes.now ≡ Some text.now) }
    ensures err { IfErr result (λ fault. (fault ≡ NotSpelled) × (passed is_utf8 bytes.now ≡ None)) }
{
    match std::str::from_utf8(bytes) {
        Ok(text) => Ok(text),
        Err(_) => Err(ReadFault::NotSpelled),
    }
}

// Whether the bytes are a few of ASCII. A short text is looked at sooner here than by `from_utf8`.
fn is_short_ascii(bytes: &[u8]) -> bool
    ensures { IsTrue result → IsAscii bytes.now }
{
    bytes.len() <= 16 && has_ascii_alone(bytes)
}

// Whether each byte is ASCII.
fn has_ascii_alone(bytes: &[u8]) -> bool
    ensures { IsTrue result → IsAscii bytes.now }
{
    for byte in bytes {
        if *byte >= 128 {
            return false;
        }
    }
    true
}
