ghost use Rattle.std.specs.Prelude.{◌≡◌, ◌≤◌, [], IfOk, length};

use crate::TryCopy;
use std::alloc::{AllocError, Global};
use std::fmt::{self, Debug, Formatter, Write};
use std::marker::Model;

// How many bytes of a text stand in their place, and take no memory of their own.
const MOST_IN_PLACE: usize = 16;

/// A text in UTF-8. Contracts see its bytes.
#[derive(Drop)]
pub struct Text {
    kept: Kept,
}

/// Where the bytes of a text stand.
#[derive(Drop)]
pub enum Kept {
    /// The first ones of these, so many.
    InPlace(u32, [u8; MOST_IN_PLACE]),
    Apart(Box<String>),
}

impl Model for Text {
    ghost use Rattle.std.specs.Prelude.{ℕ, List};
    ghost use Rattle.zb_base.specs.Text.{bytes_kept, IsWellKept};

    ghost Value = { List ℕ };

    ghost view = { λ t. bytes_kept t.kept };

    ghost invariant = { λ t. IsWellKept t.kept };
}

ghost use Rattle.zb_base.specs.Text.{bytes_kept, IsWellKept};

impl Text {
    /// The empty text. It takes no memory.
    pub fn empty(_alloc: Global) -> Text
        ensures { result ≡ [] }
    {
        Text { kept: in_place("") }
    }

    /// A copy of the text `s`. It takes no memory where `s` has at most 16 bytes.
    pub fn of(alloc: Global, s: &str) -> Result<Text, AllocError>
        ensures { IfOk result (λ text. text ≡ s.now) }
    {
        if s.len() <= MOST_IN_PLACE {
            Ok(Text { kept: in_place(s) })
        } else {
            let apart = String::from_str(alloc, s)?;
            Ok(Text {
                kept: Kept::Apart(Box::new(alloc, apart)?),
            })
        }
    }

    /// The text as a `&str`.
    pub fn as_str(&self) -> &str
        ensures { result.now ≡ self.now }
    {
        match &self.kept {
            // The type's invariant has them in UTF-8, and the check demands it here.
            Kept::InPlace(size, bytes) => unsafe {
                str::from_utf8_unchecked(&bytes[..*size as usize])
            },
            Kept::Apart(text) => text.as_str(),
        }
    }
}

// The bytes of this text, in their place.
fn in_place(text: &str) -> Kept
    requires { length text.now ≤ 16 }
    ensures value { bytes_kept result ≡ text.now }
    ensures kept { IsWellKept result }
{
    let mut bytes = [0; MOST_IN_PLACE];
    bytes[..text.len()].copy_from_slice(text.as_bytes());
    Kept::InPlace(text.len() as u32, bytes)
}

impl Debug for Text {
    fn fmt<W: Write>(&self, f: &mut Formatter<W>) -> fmt::Result {
        self.as_str().fmt(f)
    }
}

impl TryCopy for Text {
    fn copy(&self, alloc: Global) -> Result<Text, AllocError> {
        Text::of(alloc, self.as_str())
    }
}
