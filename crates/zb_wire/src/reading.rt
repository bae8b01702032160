ghost use Rattle.std.specs.Prelude.{◌≡◌, ◌+◌, ℕ, List, take};
ghost use Rattle.serde_json.specs.View.{view};
ghost use Rattle.zb_wire.specs.declared.given.Given.{Given};
ghost use Rattle.zb_wire.specs.Listed.{members_listed, object_of};
ghost use Rattle.zb_wire.specs.Op.{request_with};
ghost use Rattle.zb_wire.specs.Ops.{op_of};
ghost use Rattle.zb_wire.specs.Reading.{ReadsValue, Blames};
ghost use Rattle.zb_wire.specs.Request.{longest_line, value_in, request_in, request_of, GivesRequest};

use crate::fields::fault_in;
use crate::members::{Member, list_members, value_at};
use crate::ops::OpName;
use crate::{Given, LineFault, Request};
use serde_json::{Category, Error, Value as Json};
use std::alloc::{AllocError, Global};

/// A line has at most so many bytes, without its newline.
pub const LONGEST_LINE: usize = 262_144;

/// So many bytes of a line, from its front, show which request it is or that it is too long.
#[tactic(auto, unfolding(crate::specs::Request::longest_line))]
pub fn longest_shown() -> usize
    ensures number { result ≡ longest_line + 1 }
    ensures decides { (given : Given) (line : List ℕ)
        → request_of given (take result line) ≡ request_of given line }
{
    LONGEST_LINE + 1
}

/// The request that a line, without its newline, asks for, or its fault. It takes time and memory in
/// proportion to the line.
#[tactic(auto, unfolding(crate::specs::Request::request_of, crate::specs::Request::short_line, crate::specs::Request::longest_line))]
pub fn read_line(alloc: Global, line: &[u8], given: Given) -> Result<Request, LineFault>
    ensures { GivesRequest result (request_of given line.now) }
{
    if line.len() > LONGEST_LINE {
        return Err(LineFault::TooLong);
    }
    match value_in(alloc, line) {
        Ok(value) => request_in(alloc, &value, given),
        Err(fault) => Err(fault),
    }
}

// The JSON value that a text is.
#[tactic(auto, using(crate::proofs::LineLemmas::value_laws))]
fn value_in(alloc: Global, text: &[u8]) -> Result<Json, LineFault>
    ensures { ReadsValue result (value_in text.now) }
{
    match Json::from_slice(alloc, text) {
        Ok(value) => Ok(value),
        Err(error) => Err(fault_of(&error)),
    }
}

// What an error of the JSON reader says of a line.
fn fault_of(error: &Error) -> LineFault
    ensures { Blames result error.now }
{
    match error.classify() {
        Category::Memory => LineFault::Memory,
        _ => LineFault::NotJson,
    }
}

// The request that a value is.
#[tactic(auto, using(crate::proofs::ListedLemmas::object_by))]
fn request_in(alloc: Global, value: &Json, given: Given) -> Result<Request, LineFault>
    ensures { GivesRequest result (request_in given (view value.now)) }
{
    let Some(members) = value.as_object() else {
        return Err(LineFault::NotObject);
    };
    match list_members(alloc, members) {
        Ok(members) => request_of(alloc, given, members.as_slice()),
        Err(AllocError) => Err(LineFault::Memory),
    }
}

// The request that an object is, these being its members.
fn request_of(alloc: Global, given: Given, members: &[Member]) -> Result<Request, LineFault>
    ensures { GivesRequest result (request_in given (object_of members.now)) }
{
    let Some(name) = value_at(members, "op").and_then(Json::as_str) else {
        return Err(LineFault::NoOp);
    };
    match OpName::named(name, given) {
        Some(op) => request_with(alloc, given, op, members),
        None => Err(LineFault::UnknownOp),
    }
}

// The request of this op that an object is, these being its members.
#[tactic(auto, using(crate::proofs::FaultLemmas::tells_same))]
fn request_with(
    alloc: Global,
    given: Given,
    op: OpName,
    members: &[Member],
) -> Result<Request, LineFault>
    ensures { GivesRequest result
        (request_with given (op_of op) (members_listed members.now) (object_of members.now)) }
{
    match fault_in(alloc, given, op.fields(), members) {
        Ok(None) => {}
        Ok(Some(fault)) => return Err(fault),
        Err(AllocError) => return Err(LineFault::Memory),
    }
    match op.make(alloc, given, members) {
        Ok(request) => Ok(request),
        Err(AllocError) => Err(LineFault::Memory),
    }
}
