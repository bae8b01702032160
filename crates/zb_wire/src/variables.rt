ghost use Rattle.std.specs.Prelude.{◌≡◌, IfOk, is_some, option_map};
ghost use Rattle.zb_base.specs.declared.value.Value.TheVariants as values;
ghost use Rattle.serde_json.specs.View.{view, items_view, members_view};
ghost use Rattle.zb_wire.specs.Variables as spec;

use serde_json::{Map, Value as Json};
use std::alloc::{AllocError, Global};
use zb_model::{List, Text, Value, Variable, Vars};

/// A name or an id has at most so many bytes.
pub const LONGEST_NAME: usize = 255;

/// The text of a variable has at most so many bytes, and so has a message of a job that failed.
pub const LONGEST_TEXT: usize = 32_768;

/// Whether each member is of a kind that a variable may have.
pub fn all_variables(members: &Map<String, Json>) -> bool
    ensures { result ≡ spec.all_variables (members_view members.now.entries) }
{
    for (_, value) in members.iter() {
        if !is_variable(value) {
            return false;
        }
    }
    true
}

// Whether the value is of a kind that a variable may have.
fn is_variable(value: &Json) -> bool
    ensures { result ≡ spec.is_variable (view value.now) }
{
    match value {
        Json::Null | Json::Object(_) => false,
        Json::Bool(_) | Json::String(_) => true,
        Json::Number(_) => is_whole(value),
        Json::Array(items) => are_whole(items.as_slice()),
    }
}

// Whether each item is a whole number.
fn are_whole(items: &[Json]) -> bool
    ensures { result ≡ spec.are_whole (items_view items.now) }
{
    for item in items {
        if !is_whole(item) {
            return false;
        }
    }
    true
}

// Whether the value is a whole number of 64 bits.
fn is_whole(value: &Json) -> bool
    ensures { result ≡ spec.is_whole (view value.now) }
{
    value.is_u64() || value.is_i64()
}

/// Whether each member is within the limits of a variable.
pub fn all_within(members: &Map<String, Json>) -> bool
    ensures { result ≡ is_some (spec.variables_of (members_view members.now.entries)) }
{
    for (name, value) in members.iter() {
        if name.len() > LONGEST_NAME || !is_within(value) {
            return false;
        }
    }
    true
}

// Whether the value is within the limits of what a variable may hold.
fn is_within(value: &Json) -> bool
    ensures { result ≡ is_some (spec.variable_value (view value.now)) }
{
    match value {
        Json::Null | Json::Object(_) => false,
        Json::Bool(_) => true,
        Json::Number(number) => number.is_i64(),
        Json::String(text) => text.len() <= LONGEST_TEXT,
        Json::Array(items) => are_signed(items.as_slice()),
    }
}

// Whether each item is a number of 64 bits with sign.
fn are_signed(items: &[Json]) -> bool
    ensures { result ≡ is_some (spec.numbers_of (items_view items.now)) }
{
    for item in items {
        if !item.is_i64() {
            return false;
        }
    }
    true
}

/// The variables that the members are, if each is within its limits.
pub fn variables_of(alloc: Global, members: &Map<String, Json>) -> Result<Option<Vars>, AllocError>
    ensures { IfOk result (λ vars. vars ≡ spec.variables_of (members_view members.now.entries)) }
{
    let mut variables = List::empty(alloc);
    for (name, value) in members.iter() {
        match variable_of(alloc, name.as_str(), value)? {
            Some(variable) => variables.push(variable)?,
            None => return Ok(None),
        }
    }
    Ok(Vars::of(variables))
}

// The variable that a member is, if it is within its limits.
fn variable_of(alloc: Global, name: &str, value: &Json) -> Result<Option<Variable>, AllocError>
    ensures { IfOk result (λ variable. variable ≡ spec.variable_of name.now (view value.now)) }
{
    if name.len() > LONGEST_NAME {
        return Ok(None);
    }
    let Some(value) = value_of(alloc, value)? else {
        return Ok(None);
    };
    let name = Text::of(alloc, name)?;
    Ok(Some(Variable { name, value }))
}

// What a variable of this value holds, if it is within its limits.
fn value_of(alloc: Global, value: &Json) -> Result<Option<Value>, AllocError>
    ensures { IfOk result (λ held. held ≡ spec.variable_value (view value.now)) }
{
    match value {
        Json::Bool(flag) => Ok(Some(Value::Bool(*flag))),
        Json::Number(number) => Ok(number.as_i64().map(Value::Int)),
        Json::String(text) => text_of(alloc, text.as_str()),
        Json::Array(items) => list_of(alloc, items.as_slice()),
        Json::Null | Json::Object(_) => Ok(None),
    }
}

// The text as a variable's value, if it isn't too long.
fn text_of(alloc: Global, text: &str) -> Result<Option<Value>, AllocError>
    ensures { IfOk result (λ value. value ≡ option_map values.Text (spec.short_text text.now)) }
{
    if text.len() > LONGEST_TEXT {
        return Ok(None);
    }
    Ok(Some(Value::Text(Text::of(alloc, text)?)))
}

// The numbers as a variable's value, if each is a number of 64 bits with sign.
fn list_of(alloc: Global, items: &[Json]) -> Result<Option<Value>, AllocError>
    ensures { IfOk result (λ value. value ≡ option_map values.List (spec.numbers_of (items_view items.now))) }
{
    let mut numbers = List::empty(alloc);
    for item in items {
        match item.as_i64() {
            Some(number) => numbers.push(number)?,
            None => return Ok(None),
        }
    }
    Ok(Some(Value::List(numbers)))
}
