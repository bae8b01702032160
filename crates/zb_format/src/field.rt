ghost use Rattle.zb_format.specs.Layout as layouts;

use crate::front::write_count;
use crate::text::read_str;
use crate::{Cursor, Encoder, Format, ReadFault};
use std::alloc::{AllocError, Global};
use zb_base::{Key, Moment, Text};

impl Format for u32 {
    ghost layout = { layouts.number };

    #[tactic(auto, using(crate::proofs::SizeLemmas::pieces), unfolding(crate::specs::Layout::number, crate::specs::Field::number_bytes))]
    fn write(&self, encoder: &mut Encoder) -> Result<(), AllocError> {
        encoder.add(&self.to_be_bytes())
    }

    #[tactic(auto, unfolding(crate::specs::Layout::number))]
    fn read(_alloc: Global, cursor: &mut Cursor<'_>) -> Result<u32, ReadFault> {
        cursor.number()
    }
}

impl Format for u64 {
    ghost layout = { layouts.long };

    #[tactic(auto, using(crate::proofs::SizeLemmas::pieces), unfolding(crate::specs::Layout::long, crate::specs::Field::long_bytes))]
    fn write(&self, encoder: &mut Encoder) -> Result<(), AllocError> {
        encoder.add(&self.to_be_bytes())
    }

    #[tactic(auto, unfolding(crate::specs::Layout::long))]
    fn read(_alloc: Global, cursor: &mut Cursor<'_>) -> Result<u64, ReadFault> {
        cursor.long()
    }
}

impl Format for i64 {
    ghost layout = { layouts.signed };

    #[tactic(auto, using(crate::proofs::SizeLemmas::pieces), unfolding(crate::specs::Layout::signed, crate::specs::Field::signed_bytes))]
    fn write(&self, encoder: &mut Encoder) -> Result<(), AllocError> {
        encoder.add(&self.cast_unsigned().to_be_bytes())
    }

    #[tactic(auto, unfolding(crate::specs::Layout::signed, crate::specs::Reading::signed_at))]
    fn read(_alloc: Global, cursor: &mut Cursor<'_>) -> Result<i64, ReadFault> {
        Ok(cursor.long()?.cast_signed())
    }
}

#[tactic(auto, unfolding(crate::specs::Layout::flag))]
impl Format for bool {
    ghost layout = { layouts.flag };

    fn write(&self, encoder: &mut Encoder) -> Result<(), AllocError> {
        encoder.add(&[u8::from(*self)])
    }

    fn read(_alloc: Global, cursor: &mut Cursor<'_>) -> Result<bool, ReadFault> {
        match cursor.byte()? {
            0 => Ok(false),
            1 => Ok(true),
            _ => Err(ReadFault::NotSpelled),
        }
    }
}

impl Format for Key {
    ghost layout = { layouts.long };

    fn write(&self, encoder: &mut Encoder) -> Result<(), AllocError> {
        self.number().write(encoder)
    }

    fn read(alloc: Global, cursor: &mut Cursor<'_>) -> Result<Key, ReadFault> {
        Ok(Key::new(<u64 as Format>::read(alloc, cursor)?))
    }
}

impl Format for Moment {
    ghost layout = { layouts.long };

    fn write(&self, encoder: &mut Encoder) -> Result<(), AllocError> {
        self.ms().write(encoder)
    }

    fn read(alloc: Global, cursor: &mut Cursor<'_>) -> Result<Moment, ReadFault> {
        Ok(Moment::new(<u64 as Format>::read(alloc, cursor)?))
    }
}

impl Format for Text {
    ghost layout = { layouts.text };

    #[tactic(auto, using(crate::proofs::Adding::pieces, crate::proofs::SizeLemmas::pieces, crate::proofs::TextLemmas::is_text), unfolding(crate::specs::Layout::text, crate::specs::Field::text_bytes, crate::specs::Field::number_bytes))]
    fn write(&self, encoder: &mut Encoder) -> Result<(), AllocError> {
        let spelled = self.as_str().as_bytes();
        write_count(spelled.len(), encoder)?;
        encoder.add(spelled)
    }

    #[tactic(auto, unfolding(crate::specs::Layout::text))]
    fn read(alloc: Global, cursor: &mut Cursor<'_>) -> Result<Text, ReadFault> {
        let text = read_str(cursor)?;
        Ok(Text::of(alloc, text)?)
    }
}

impl<A: Format, B: Format> Format for (A, B) {
    ghost layout = { layouts.both A.layout B.layout };

    #[tactic(auto, using(crate::proofs::Adding::pieces))]
    fn write(&self, encoder: &mut Encoder) -> Result<(), AllocError> {
        self.0.write(encoder)?;
        self.1.write(encoder)
    }

    fn read(alloc: Global, cursor: &mut Cursor<'_>) -> Result<(A, B), ReadFault> {
        let first = A::read(alloc, cursor)?;
        let second = B::read(alloc, cursor)?;
        Ok((first, second))
    }
}
