ghost use Rattle.std.specs.Prelude.{◌≡◌, IfOk};

use std::alloc::{AllocError, Global};
use std::marker::Model;
use zb_base::{TryCopy, Value};

/// A value on the stack: lent by the code or by where the names have values, or made by an instruction.
/// Contracts see the value.
#[derive(Drop)]
pub struct Operand<'a> {
    held: Held<'a>,
}

#[derive(Drop)]
enum Held<'a> {
    Lent(&'a Value),
    Made(Value),
}

impl<'a> Model for Operand<'a> {
    ghost use Rattle.zb_base.specs.declared.value.Value.{Value as Datum};

    ghost Value = { Datum };

    ghost use Rattle.zb_expr.specs.Operand.{value_held};

    ghost view = { λ o. value_held o.held };
}

impl<'a> Operand<'a> {
    /// A value that is lent.
    pub fn lent(value: &'a Value) -> Operand<'a>
        ensures { result ≡ value.now }
    {
        Operand {
            held: Held::Lent(value),
        }
    }

    /// A value of its own.
    pub fn made(value: Value) -> Operand<'a>
        ensures { result ≡ value }
    {
        Operand {
            held: Held::Made(value),
        }
    }

    /// The value.
    pub fn value(&self) -> &Value
        ensures { result.now ≡ self.now }
    {
        match &self.held {
            Held::Lent(value) => *value,
            Held::Made(value) => value,
        }
    }

    /// The value, copied where it was lent. It takes a step for each byte of a text and each item of a list.
    pub fn into_value(self, alloc: Global) -> Result<Value, AllocError>
        ensures { IfOk result (λ value. value ≡ self.entry) }
    {
        match self.held {
            Held::Lent(value) => value.copy(alloc),
            Held::Made(value) => Ok(value),
        }
    }
}
