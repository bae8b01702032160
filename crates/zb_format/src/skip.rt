ghost use Rattle.zb_format.specs.Reading.{Reads, skipped_at};

use crate::text::read_str;
use crate::value::read_vars;
use crate::{Cursor, Format, ReadFault};
use std::alloc::Global;
use zb_base::{Key, List, Moment, Text, Vars};

/// What can be passed over where its value isn't wanted.
pub trait Skip: Format {
    /// Goes on as `read` does, and gives no value. Where a type doesn't say how, the value is made and dropped.
    fn skip(alloc: Global, cursor: &mut Cursor<'_>) -> Result<(), ReadFault>
        ensures { Reads (skipped_at Self.layout.reading cursor.old) result cursor.new }
    {
        let _ = Self::read(alloc, cursor)?;
        Ok(())
    }
}

impl Skip for u32 {}

impl Skip for u64 {}

impl Skip for bool {}

impl Skip for Key {}

impl Skip for Moment {}

impl<T: Format> Skip for List<T> {}

// The text is judged where it stands.
#[tactic(auto, unfolding(crate::specs::Layout::text))]
impl Skip for Text {
    fn skip(_alloc: Global, cursor: &mut Cursor<'_>) -> Result<(), ReadFault> {
        let _ = read_str(cursor)?;
        Ok(())
    }
}

// Variables are made where there are any, for their names are judged.
#[tactic(auto, unfolding(crate::specs::Layout::variables, crate::specs::Layout::variable, crate::specs::Layout::number, crate::specs::Reading::counted_at))]
impl Skip for Vars {
    #[inline]
    fn skip(alloc: Global, cursor: &mut Cursor<'_>) -> Result<(), ReadFault> {
        match <u32 as Format>::read(alloc, cursor)? {
            0 => Ok(()),
            count => {
                let _ = read_vars(alloc, count, cursor)?;
                Ok(())
            }
        }
    }
}

#[tactic(auto, using(crate::proofs::SkipLemmas::skips))]
impl<A: Skip, B: Skip> Skip for (A, B) {
    fn skip(alloc: Global, cursor: &mut Cursor<'_>) -> Result<(), ReadFault> {
        A::skip(alloc, cursor)?;
        B::skip(alloc, cursor)
    }
}
