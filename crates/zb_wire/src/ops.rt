ghost use Rattle.std.specs.Prelude.{◌≡◌, IfOk, option_map, map};
ghost use Rattle.zb_wire.specs.Listed.{object_of};
ghost use Rattle.zb_wire.specs.Ops.{op_named, op_of};
ghost use Rattle.zb_wire.specs.Reading.{field_of};

use crate::fields::Field;
use crate::kind::Kind;
use crate::making::{
    activation_in, completion_in, creation_in, failure_in, message_in, partition_in, retries_in,
    thrown_in, update_in,
};
use crate::members::Member;
use crate::values::{count_at, key_at, model_at};
use crate::variables::{LONGEST_NAME, LONGEST_TEXT};
use crate::{Given, Request};
use std::alloc::{AllocError, Global};

// The longest time, in milliseconds.
const LONGEST_DURATION: u64 = 4_000_000_000_000;

// The greatest version, which is the greatest number of 32 bits.
const GREATEST_VERSION: u64 = 4_294_967_295;

// So many jobs are taken at most by one activate.
const MOST_JOBS: u64 = 1_000;

// A name or an id.
const NAME: Kind = Kind::Text(LONGEST_NAME);

// A time to wait.
const DURATION: Kind = Kind::Number(0, LONGEST_DURATION);

// How many tries of a job may be left.
const RETRIES: Kind = Kind::Number(0, 1_000_000);

// A key.
const KEY: Kind = Kind::Number(0, u64::MAX);

const DEPLOY: [Field; 1] = [Field::Must("model", Kind::Model)];

const CREATE: [Field; 4] = [
    Field::Must("process", NAME),
    Field::May("version", Kind::Number(0, GREATEST_VERSION)),
    Field::May("variables", Kind::Variables),
    Field::May("partition", Kind::Partition),
];

const BY_KEY: [Field; 1] = [Field::Must("key", KEY)];

const VARIABLES: [Field; 3] = [
    Field::Must("key", KEY),
    Field::Must("variables", Kind::Variables),
    Field::May("local", Kind::Flag),
];

const ACTIVATE: [Field; 5] = [
    Field::Must("type", NAME),
    Field::Must("worker", NAME),
    Field::Must("timeout", Kind::Number(1, LONGEST_DURATION)),
    Field::Must("max", Kind::Number(1, MOST_JOBS)),
    Field::May("partition", Kind::Partition),
];

const COMPLETE: [Field; 2] = [
    Field::Must("key", KEY),
    Field::May("variables", Kind::Variables),
];

const FAIL: [Field; 3] = [
    Field::Must("key", KEY),
    Field::Must("retries", RETRIES),
    Field::May("message", Kind::Text(LONGEST_TEXT)),
];

const THROW: [Field; 2] = [Field::Must("key", KEY), Field::Must("code", NAME)];

const UPDATE_RETRIES: [Field; 2] = [Field::Must("key", KEY), Field::Must("retries", RETRIES)];

const PUBLISH: [Field; 5] = [
    Field::Must("name", NAME),
    Field::Must("correlationKey", NAME),
    Field::Must("timeToLive", DURATION),
    Field::May("messageId", NAME),
    Field::May("variables", Kind::Variables),
];

const NONE: [Field; 0] = [];

const ADVANCE: [Field; 1] = [Field::Must("ms", DURATION)];

/// The ops.
#[derive(Clone, Copy)]
pub enum OpName {
    Deploy,
    Create,
    Cancel,
    Variables,
    Activate,
    Complete,
    Fail,
    Throw,
    Retries,
    Publish,
    Resolve,
    Tick,
    Advance,
    Settle,
}

impl OpName {
    /// The op of this name, where there is one; advance is one where the clock is moved by hand.
    #[tactic(auto, unfolding(crate::specs::Ops::op_named))]
    pub fn named(name: &str, given: Given) -> Option<OpName>
        ensures { option_map op_of result ≡ op_named given name.now }
    {
        match name {
            "deploy" => Some(OpName::Deploy),
            "create" => Some(OpName::Create),
            "cancel" => Some(OpName::Cancel),
            "variables" => Some(OpName::Variables),
            "activate" => Some(OpName::Activate),
            "complete" => Some(OpName::Complete),
            "fail" => Some(OpName::Fail),
            "throw" => Some(OpName::Throw),
            "retries" => Some(OpName::Retries),
            "publish" => Some(OpName::Publish),
            "resolve" => Some(OpName::Resolve),
            "tick" => Some(OpName::Tick),
            "advance" if given.manual => Some(OpName::Advance),
            "settle" => Some(OpName::Settle),
            _ => None,
        }
    }

    /// Its fields beside `op`, in order.
    pub fn fields(self) -> &'static [Field]
        ensures { map field_of result.now ≡ (op_of self).fields }
    {
        match self {
            OpName::Deploy => &DEPLOY,
            OpName::Create => &CREATE,
            OpName::Cancel | OpName::Resolve => &BY_KEY,
            OpName::Variables => &VARIABLES,
            OpName::Activate => &ACTIVATE,
            OpName::Complete => &COMPLETE,
            OpName::Fail => &FAIL,
            OpName::Throw => &THROW,
            OpName::Retries => &UPDATE_RETRIES,
            OpName::Publish => &PUBLISH,
            OpName::Tick | OpName::Settle => &NONE,
            OpName::Advance => &ADVANCE,
        }
    }

    /// The request that an object with such fields is, these being its members.
    pub fn make(
        self,
        alloc: Global,
        given: Given,
        members: &[Member],
    ) -> Result<Request, AllocError>
        ensures { IfOk result (λ request. request ≡ (op_of self).request given (object_of members.now)) }
    {
        match self {
            OpName::Deploy => Ok(Request::Deploy(model_at(alloc, members, "model")?)),
            OpName::Create => Ok(Request::Create {
                partition: partition_in(given, members),
                creation: creation_in(alloc, members)?,
            }),
            OpName::Cancel => Ok(Request::Cancel(key_at(members, "key"))),
            OpName::Variables => Ok(Request::Variables(update_in(alloc, members)?)),
            OpName::Activate => Ok(Request::Activate {
                partition: partition_in(given, members),
                activation: activation_in(alloc, members)?,
            }),
            OpName::Complete => Ok(Request::Complete(completion_in(alloc, members)?)),
            OpName::Fail => Ok(Request::Fail(failure_in(alloc, members)?)),
            OpName::Throw => Ok(Request::Throw(thrown_in(alloc, members)?)),
            OpName::Retries => Ok(Request::Retries(retries_in(members))),
            OpName::Publish => Ok(Request::Publish(message_in(alloc, members)?)),
            OpName::Resolve => Ok(Request::Resolve(key_at(members, "key"))),
            OpName::Tick => Ok(Request::Tick),
            OpName::Advance => Ok(Request::Advance(count_at(members, "ms"))),
            OpName::Settle => Ok(Request::Settle),
        }
    }
}
