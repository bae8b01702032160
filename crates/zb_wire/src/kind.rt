ghost use Rattle.std.specs.Prelude.{◌≡◌, IfOk};
ghost use Rattle.serde_json.specs.View.{view};
ghost use Rattle.zb_wire.specs.Fields as spec;
ghost use Rattle.zb_wire.specs.declared.kind.Kind.TheVariants as kinds;

use crate::faults::{field_fault, place_fault};
use crate::variables::{all_variables, all_within};
use crate::{Given, LineFault};
use serde_json::Value as Json;
use std::alloc::{AllocError, Global};
use zb_model::Text;
use zb_reader::{is_between, is_short, model_place};

/// What the value of a field may be, with its limits.
#[derive(Clone, Copy)]
pub enum Kind {
    /// A text of at most so many bytes.
    Text(usize),
    /// A whole number from the first of these to the second.
    Number(u64, u64),
    /// The number of a partition, from 1.
    Partition,
    /// A truth value.
    Flag,
    /// An object whose members are variables.
    Variables,
    /// A process model.
    Model,
}

impl Kind {
    /// The fault of a field of this kind that a line hasn't and must have.
    pub fn missing(self, alloc: Global, field: &str) -> Result<LineFault, AllocError>
        ensures { IfOk result (λ fault. fault ≡ spec.missing_fault field.now self) }
    {
        match self {
            Kind::Model => place_fault(alloc, field, Text::empty(alloc)),
            _ => field_fault(alloc, field),
        }
    }

    /// The fault of a field of this kind whose value isn't of it, if it isn't.
    pub fn fault(
        self,
        alloc: Global,
        field: &str,
        value: &Json,
    ) -> Result<Option<LineFault>, AllocError>
        ensures { IfOk result (λ fault. fault ≡ spec.kind_fault field.now self (view value.now)) }
    {
        match self {
            Kind::Text(_) => unless(alloc, value.is_string(), field),
            Kind::Number(_, _) => unless(alloc, value.is_u64(), field),
            Kind::Partition => unless(alloc, value.is_u64(), field),
            Kind::Flag => unless(alloc, value.is_boolean(), field),
            Kind::Variables => {
                let good = value.as_object().is_some_and(all_variables);
                unless(alloc, good, field)
            }
            Kind::Model => model_fault(alloc, field, value),
        }
    }

    /// Whether a value is of this kind and within its limits.
    pub fn allows(self, given: Given, value: &Json) -> bool
        ensures { result ≡ spec.allows given self (view value.now) }
    {
        match self {
            Kind::Text(most) => is_short(value, most),
            Kind::Number(least, most) => is_between(value, least, most),
            Kind::Partition => is_between(value, 1, u64::from(given.partitions)),
            Kind::Variables => value.as_object().is_some_and(all_within),
            Kind::Flag | Kind::Model => true,
        }
    }
}

// The fault of a field, unless its value is good.
fn unless(alloc: Global, good: bool, field: &str) -> Result<Option<LineFault>, AllocError>
    ensures { IfOk result (λ fault. fault ≡ spec.unless_good good field.now) }
{
    if good {
        return Ok(None);
    }
    Ok(Some(field_fault(alloc, field)?))
}

// The fault of a field whose value is no model.
fn model_fault(alloc: Global, field: &str, value: &Json) -> Result<Option<LineFault>, AllocError>
    ensures { IfOk result (λ fault. fault
        ≡ spec.kind_fault field.now kinds.Model (view value.now)) }
{
    match model_place(alloc, value)? {
        Some(path) => Ok(Some(place_fault(alloc, field, path)?)),
        None => Ok(None),
    }
}
