ghost use Rattle.zb_base.specs.Vars.{is_ascending};
ghost use Rattle.zb_format.specs.Layout as layouts;
ghost use Rattle.zb_format.specs.Reading.{Reads, chosen_at, many_at, passed};

use crate::front::write_tagged;
use crate::list::{read_many, write_all};
use crate::{Cursor, Encoder, Fields, Format, ReadFault};
use std::alloc::{AllocError, Global};
use zb_base::{List, Pair, Text, Value, Variable, Vars};

impl Format for Value {
    ghost layout = { layouts.value };

    #[tactic(auto, unfolding(crate::specs::Layout::value, crate::specs::Field::value_bytes, crate::specs::Layout::signed, crate::specs::Layout::flag, crate::specs::Layout::text))]
    fn write(&self, encoder: &mut Encoder) -> Result<(), AllocError> {
        match self {
            Value::Int(number) => write_tagged(0, number, encoder),
            Value::Bool(flag) => write_tagged(1, flag, encoder),
            Value::Text(text) => write_tagged(2, text, encoder),
            Value::List(list) => write_tagged(3, list, encoder),
        }
    }

    #[tactic(auto, unfolding(crate::specs::Layout::value, crate::specs::Reading::value_at, crate::specs::Layout::signed, crate::specs::Layout::flag, crate::specs::Layout::text))]
    fn read(alloc: Global, cursor: &mut Cursor<'_>) -> Result<Value, ReadFault> {
        match cursor.byte()? {
            0 => Ok(Value::Int(i64::read(alloc, cursor)?)),
            1 => Ok(Value::Bool(bool::read(alloc, cursor)?)),
            2 => Ok(Value::Text(Text::read(alloc, cursor)?)),
            3 => Ok(Value::List(List::read(alloc, cursor)?)),
            _ => Err(ReadFault::NotSpelled),
        }
    }
}

#[tactic(auto, unfolding(crate::specs::Layout::variable))]
impl Format for Variable {
    ghost layout = { layouts.variable };

    fn write(&self, encoder: &mut Encoder) -> Result<(), AllocError> {
        (&self.name, &self.value).encode(encoder)
    }

    fn read(alloc: Global, cursor: &mut Cursor<'_>) -> Result<Variable, ReadFault> {
        let (name, value) = Format::read(alloc, cursor)?;
        Ok(Variable { name, value })
    }
}

impl Format for Vars {
    ghost layout = { layouts.variables };

    #[tactic(auto, unfolding(crate::specs::Layout::variables, crate::specs::Layout::variable))]
    fn write(&self, encoder: &mut Encoder) -> Result<(), AllocError> {
        write_all(self.as_slice(), encoder)
    }

    #[tactic(auto, unfolding(crate::specs::Layout::variables, crate::specs::Layout::variable, crate::specs::Layout::number, crate::specs::Reading::counted_at))]
    fn read(alloc: Global, cursor: &mut Cursor<'_>) -> Result<Vars, ReadFault> {
        match <u32 as Format>::read(alloc, cursor)? {
            0 => Ok(Vars::empty(alloc)),
            count => read_vars(alloc, count, cursor),
        }
    }
}

/// Reads so many variables. It stands apart, so that a caller that finds none stays small.
#[inline(never)]
#[tactic(auto, unfolding(crate::specs::Layout::variable))]
pub fn read_vars(alloc: Global, count: u32, cursor: &mut Cursor<'_>) -> Result<Vars, ReadFault>
    ensures { Reads (chosen_at (passed is_ascending) (many_at layouts.variable.reading count) cursor.old) result cursor.new }
{
    match Vars::of(read_many(alloc, count, cursor)?) {
        Some(variables) => Ok(variables),
        None => Err(ReadFault::NotSpelled),
    }
}

#[tactic(auto, unfolding(crate::specs::Layout::pair))]
impl Format for Pair {
    ghost layout = { layouts.pair };

    fn write(&self, encoder: &mut Encoder) -> Result<(), AllocError> {
        (&self.from, &self.to).encode(encoder)
    }

    fn read(alloc: Global, cursor: &mut Cursor<'_>) -> Result<Pair, ReadFault> {
        let (from, to) = Format::read(alloc, cursor)?;
        Ok(Pair { from, to })
    }
}

impl<T: Format> Format for Option<T> {
    ghost layout = { layouts.optional T.layout };

    fn write(&self, encoder: &mut Encoder) -> Result<(), AllocError> {
        match self {
            None => encoder.add(&[0]),
            Some(value) => write_tagged(1, value, encoder),
        }
    }

    fn read(alloc: Global, cursor: &mut Cursor<'_>) -> Result<Option<T>, ReadFault> {
        match cursor.byte()? {
            0 => Ok(None),
            1 => Ok(Some(T::read(alloc, cursor)?)),
            _ => Err(ReadFault::NotSpelled),
        }
    }
}
