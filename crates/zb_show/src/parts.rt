// The parts of a line.
ghost use Rattle.std.specs.Prelude.{◌≡◌, ◌++◌, codes, string_bytes, OnOk};
ghost use Rattle.std.specs.Fmt.{decimal};
ghost use Rattle.zb_show.specs.Lines.{spaced, stamp_text, title_text, front_text};

use crate::lines::Stamp;
use std::alloc::AllocError;
use zb_model::Key;

/// Adds the front of a record's line: where it stands, its kind, its value type and intent, and its key.
#[tactic(auto, unfolding(crate::specs::Lines::front_text))]
pub fn put_front(
    text: &mut String,
    stamp: Stamp,
    kind: &str,
    names: (&str, &str),
    key: Key,
) -> Result<(), AllocError>
    ensures { OnOk result (string_bytes text.new ≡ string_bytes text.old ++ front_text stamp kind.now (names.entry.0.now, names.entry.1.now) key) }
{
    put_stamp(text, stamp)?;
    put_title(text, kind, names, key)
}

/// Adds the end of a line.
pub fn put_end(text: &mut String, end: &str) -> Result<(), AllocError>
    ensures { OnOk result (string_bytes text.new ≡ string_bytes text.old ++ (end.now ++ codes "\n")) }
{
    text.push_str(end)?;
    text.push_str("\n")
}

// Adds where a record stands.
#[tactic(auto, unfolding(crate::specs::Lines::stamp_text))]
fn put_stamp(text: &mut String, stamp: Stamp) -> Result<(), AllocError>
    ensures { OnOk result (string_bytes text.new ≡ string_bytes text.old ++ stamp_text stamp) }
{
    put_number(text, stamp.position)?;
    put_number(text, stamp.source)?;
    put_number(text, u128::from(stamp.moment))?;
    put_number(text, u128::from(stamp.partition))
}

// Adds what a record is.
#[tactic(auto, unfolding(crate::specs::Lines::title_text))]
fn put_title(text: &mut String, kind: &str, names: (&str, &str), key: Key) -> Result<(), AllocError>
    ensures { OnOk result (string_bytes text.new ≡ string_bytes text.old ++ title_text kind.now (names.entry.0.now, names.entry.1.now) key) }
{
    put_word(text, kind)?;
    put_word(text, names.0)?;
    put_word(text, names.1)?;
    put_number(text, u128::from(key.number()))
}

/// Adds a word and the space behind it.
pub fn put_word(text: &mut String, word: &str) -> Result<(), AllocError>
    ensures { OnOk result (string_bytes text.new ≡ string_bytes text.old ++ spaced word.now) }
{
    text.push_str(word)?;
    text.push_str(" ")
}

// Adds a number and the space behind it.
fn put_number(text: &mut String, number: u128) -> Result<(), AllocError>
    ensures { OnOk result (string_bytes text.new ≡ string_bytes text.old ++ spaced (decimal number)) }
{
    text.write(number)?;
    text.push_str(" ")
}
