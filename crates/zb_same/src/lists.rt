// Options, lists and variables.
ghost use Rattle.std.specs.Prelude.{◌≡◌, ◌↔◌, IsTrue, Contains};

use crate::Same;
use zb_model::{List, Value, Variable, Vars};

impl<T: Same> Same for Option<T> {
    fn is_same(&self, other: &Option<T>) -> bool {
        match (self, other) {
            (Some(one), Some(two)) => one.is_same(two),
            (None, None) => true,
            _ => false,
        }
    }
}

impl<T: Same + Drop> Same for List<T> {
    fn is_same(&self, other: &List<T>) -> bool {
        are_same(self.as_slice(), other.as_slice())
    }
}

impl Same for Vars {
    fn is_same(&self, other: &Vars) -> bool {
        are_same(self.as_slice(), other.as_slice())
    }
}

impl Same for Variable {
    fn is_same(&self, other: &Variable) -> bool {
        same!(self, other; name, value)
    }
}

impl Same for Value {
    fn is_same(&self, other: &Value) -> bool {
        match (self, other) {
            (Value::Int(one), Value::Int(two)) => one.is_same(two),
            (Value::Bool(one), Value::Bool(two)) => one.is_same(two),
            (Value::Text(one), Value::Text(two)) => one.is_same(two),
            (Value::List(one), Value::List(two)) => one.is_same(two),
            _ => false,
        }
    }
}

// Whether two lists have the same items in the same order.
fn are_same<T: Same>(these: &[T], those: &[T]) -> bool
    ensures { IsTrue result ↔ (these.now ≡ those.now) }
{
    if these.len() != those.len() {
        return false;
    }
    for place in 0..these.len() {
        if !these[place].is_same(&those[place]) {
            return false;
        }
    }
    true
}

/// Whether an item is among some. It compares it with each until one is the same.
pub fn is_among<T: Same>(items: &[T], sought: &T) -> bool
    ensures { IsTrue result ↔ Contains items.now sought.now }
{
    for item in items {
        if item.is_same(sought) {
            return true;
        }
    }
    false
}
