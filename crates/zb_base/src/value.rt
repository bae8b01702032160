use crate::{List, Text, TryCopy};
use std::alloc::{AllocError, Global};

/// The value of a variable.
#[derive(Debug, Drop)]
pub enum Value {
    Int(i64),
    Bool(bool),
    Text(Text),
    List(List<i64>),
}

impl TryCopy for Value {
    fn copy(&self, alloc: Global) -> Result<Value, AllocError> {
        match self {
            Value::Int(number) => Ok(Value::Int(*number)),
            Value::Bool(flag) => Ok(Value::Bool(*flag)),
            Value::Text(text) => Ok(Value::Text(text.copy(alloc)?)),
            Value::List(list) => Ok(Value::List(list.copy(alloc)?)),
        }
    }
}
