ghost use Rattle.std.specs.Prelude.{◌≡◌, None, IfOk, option_map, map};
ghost use Rattle.std.specs.Option.{option_or};
ghost use Rattle.zb_wire.specs.Fields as spec;
ghost use Rattle.zb_wire.specs.First.{first_told};
ghost use Rattle.zb_wire.specs.Listed.{members_listed, object_of};
ghost use Rattle.zb_wire.specs.Reading.{field_of, data_of, range_of};

use crate::faults::{field_fault, range_fault};
use crate::kind::Kind;
use crate::members::{Member, value_at};
use crate::{Given, LineFault};
use serde_json::Value as Json;
use std::alloc::{AllocError, Global};

/// A field of a request beside `op`: its name, and what its value may be.
#[derive(Clone, Copy)]
pub enum Field {
    /// A line must have it.
    Must(&'static str, Kind),
    /// A line may have it.
    May(&'static str, Kind),
}

impl Field {
    // Its name.
    fn name(self) -> &'static str
        ensures { result.now ≡ (field_of self).name }
    {
        match self {
            Field::Must(name, _) | Field::May(name, _) => name,
        }
    }

    // What is wrong with the field where this is its value, if there is one: it is missing, or not of its kind.
    fn wrong(self, alloc: Global, found: Option<&Json>) -> Result<Option<LineFault>, AllocError>
        ensures { IfOk result (λ fault. fault
            ≡ spec.wrong_with (field_of self) (data_of found.entry)) }
    {
        match self {
            Field::Must(name, kind) => match found {
                Some(value) => kind.fault(alloc, name, value),
                None => Ok(Some(kind.missing(alloc, name)?)),
            },
            Field::May(name, kind) => match found {
                Some(value) => kind.fault(alloc, name, value),
                None => Ok(None),
            },
        }
    }

    // Whether this value is within the limits of the field, or there is none.
    fn allows(self, given: Given, found: Option<&Json>) -> bool
        ensures { result ≡ spec.allows_found given (field_of self) (data_of found.entry) }
    {
        match self {
            Field::Must(_, kind) | Field::May(_, kind) => match found {
                Some(value) => kind.allows(given, value),
                None => true,
            },
        }
    }
}

// What is wrong with the fields of a line: the fault of the first that is missing or of the wrong kind, and where
// there is none the first that is outside its limits.
#[derive(Drop)]
struct Judged {
    wrong: Option<LineFault>,
    outside: Option<&'static str>,
}

/// What is wrong with an object that has no such fields, these being its members. It takes time in proportion
/// to the object.
#[tactic(auto, unfolding(crate::specs::Fields::fault_in))]
pub fn fault_in(
    alloc: Global,
    given: Given,
    fields: &[Field],
    members: &[Member],
) -> Result<Option<LineFault>, AllocError>
    ensures { IfOk result (λ fault. fault ≡ spec.fault_in given (map field_of fields.now)
        (members_listed members.now) (object_of members.now)) }
{
    let Judged { wrong, outside } = judge(alloc, given, fields, members)?;
    if let Some(fault) = wrong {
        return Ok(Some(fault));
    }
    if let Some(field) = first_unknown(fields, members) {
        return Ok(Some(field_fault(alloc, field)?));
    }
    match outside {
        Some(field) => Ok(Some(range_fault(alloc, field)?)),
        None => Ok(None),
    }
}

// What is wrong with the fields of a line.
fn judge(
    alloc: Global,
    given: Given,
    fields: &[Field],
    members: &[Member],
) -> Result<Judged, AllocError>
    ensures wrong { IfOk result (λ judged. judged.wrong
        ≡ first_told (spec.wrong_field (object_of members.now)) (map field_of fields.now)) }
    ensures outside { IfOk result (λ judged. judged.wrong ≡ None → range_of judged.outside
        ≡ first_told (spec.field_outside given (object_of members.now)) (map field_of fields.now)) }
{
    let mut outside = None;
    for field in fields {
        let found = value_at(members, field.name());
        if let Some(fault) = field.wrong(alloc, found)? {
            return Ok(Judged {
                wrong: Some(fault),
                outside: None,
            });
        }
        outside = first_outside(outside, *field, given, found);
    }
    Ok(Judged {
        wrong: None,
        outside,
    })
}

// The first field outside its limits: the one that was found before, or else this one by its value.
fn first_outside(
    outside: Option<&'static str>,
    field: Field,
    given: Given,
    found: Option<&Json>,
) -> Option<&'static str>
    ensures { range_of result ≡ option_or (range_of outside.entry)
        (spec.outside_with given (field_of field) (data_of found.entry)) }
{
    match outside {
        Some(name) => Some(name),
        None if field.allows(given, found) => None,
        None => Some(field.name()),
    }
}

// The first member, in byte order, that is neither `op` nor one of the fields.
fn first_unknown<'m>(fields: &[Field], members: &[Member<'m>]) -> Option<&'m str>
    ensures { option_map (λ s. s.now) result
        ≡ spec.first_unknown (map field_of fields.now) (members_listed members.now) }
{
    for member in members {
        if !is_known(fields, member.name) {
            return Some(member.name);
        }
    }
    None
}

// Whether it is `op` or one of the fields.
fn is_known(fields: &[Field], name: &str) -> bool
    ensures { result ≡ spec.is_known (map field_of fields.now) name.now }
{
    if name == "op" {
        return true;
    }
    for field in fields {
        if name == field.name() {
            return true;
        }
    }
    false
}
