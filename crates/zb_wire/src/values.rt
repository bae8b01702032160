ghost use Rattle.std.specs.Prelude.{◌≡◌, false, IfOk};
ghost use Rattle.serde_json.specs.View.{view};
ghost use Rattle.zb_reader.specs.Kinds.{text_in};
ghost use Rattle.zb_reader.specs.Layout.{flag_in};
ghost use Rattle.zb_wire.specs.Fields as spec;
ghost use Rattle.zb_wire.specs.Listed.{object_of};

use crate::members::{Member, value_at};
use crate::variables::variables_of;
use serde_json::Value as Json;
use std::alloc::{AllocError, Global};
use zb_model::{Key, Model, Vars};
use zb_reader::read_model;

/// The text of a field, and the empty one where it isn't there.
pub fn text_at<'m>(members: &[Member<'m>], field: &str) -> &'m str
    ensures { result.now ≡ text_in field.now (object_of members.now) }
{
    value_at(members, field)
        .and_then(Json::as_str)
        .unwrap_or("")
}

/// The truth value of a field, and false where it isn't there.
pub fn flag_at(members: &[Member], field: &str) -> bool
    ensures { result ≡ flag_in field.now false (object_of members.now) }
{
    value_at(members, field)
        .and_then(Json::as_bool)
        .unwrap_or(false)
}

/// The number of a field, and 0 where it isn't there.
pub fn count_at(members: &[Member], field: &str) -> u64
    ensures { result ≡ spec.count_at field.now (object_of members.now) }
{
    value_at(members, field).and_then(Json::as_u64).unwrap_or(0)
}

/// The number of a field as one of 32 bits, the greatest of them where it is greater, and 0 where it isn't there.
pub fn short_count_at(members: &[Member], field: &str) -> u32
    ensures { result ≡ spec.short_count_at field.now (object_of members.now) }
{
    u32::try_from(count_at(members, field)).unwrap_or(u32::MAX)
}

/// The key of a field, and 0 where it isn't there.
pub fn key_at(members: &[Member], field: &str) -> Key
    ensures { result ≡ spec.count_at field.now (object_of members.now) }
{
    Key::new(count_at(members, field))
}

/// The variables of a field, and none where it isn't there.
pub fn variables_at(alloc: Global, members: &[Member], field: &str) -> Result<Vars, AllocError>
    ensures { IfOk result (λ variables. variables ≡ spec.variables_of_field field.now (object_of members.now)) }
{
    let found = match value_at(members, field) {
        Some(found) => variables_in(alloc, found)?,
        None => None,
    };
    Ok(found.unwrap_or(Vars::empty(alloc)))
}

// The variables that a value stands for, if each is within its limits.
fn variables_in(alloc: Global, value: &Json) -> Result<Option<Vars>, AllocError>
    ensures { IfOk result (λ variables. variables ≡ spec.variables_in (view value.now)) }
{
    match value.as_object() {
        Some(members) => variables_of(alloc, members),
        None => Ok(None),
    }
}

/// The model of a field.
pub fn model_at(alloc: Global, members: &[Member], field: &str) -> Result<Model, AllocError>
    ensures { IfOk result (λ model. model ≡ spec.model_at field.now (object_of members.now)) }
{
    match value_at(members, field) {
        Some(found) => read_model(alloc, found),
        None => read_model(alloc, &Json::Null),
    }
}
