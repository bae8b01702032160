ghost use Rattle.std.specs.Prelude.{◌≡◌, ◌+◌, ◌-◌, ◌%◌, max, IfOk};
ghost use Rattle.zb_wire.specs.Listed.{object_of};
ghost use Rattle.zb_wire.specs.Ops.{partition_in, creation_of, update_of, activation_of, completing_of, failure_of, thrown_of, retries_of, message_of};

use crate::Given;
use crate::members::{Member, value_at};
use crate::values::{count_at, flag_at, key_at, short_count_at, text_at, variables_at};
use std::alloc::{AllocError, Global};
use zb_model::{
    JobBatchActivate, JobComplete, JobError, JobFailure, JobRetries, MessagePublish,
    ProcessInstanceCreationCreate, Text, VariableDocumentUpdate,
};

/// The partition that the fields of a line ask; where they name none, the lines of a session ask one after the other.
pub fn partition_in(given: Given, members: &[Member]) -> u32
    ensures { result ≡ partition_in given (object_of members.now) }
{
    match value_at(members, "partition") {
        Some(_) => short_count_at(members, "partition"),
        None => turn_of(given),
    }
}

// The partition whose turn it is.
fn turn_of(given: Given) -> u32
    ensures { result ≡ (given.number - 1) % max given.partitions 1 + 1 }
{
    let partitions = given.partitions.max(1);
    let behind = given.number.saturating_sub(1) % u64::from(partitions);
    behind as u32 + 1
}

/// The instance that the fields of a create ask for.
pub fn creation_in(
    alloc: Global,
    members: &[Member],
) -> Result<ProcessInstanceCreationCreate, AllocError>
    ensures { IfOk result (λ creation. creation ≡ creation_of (object_of members.now)) }
{
    Ok(ProcessInstanceCreationCreate {
        process: Text::of(alloc, text_at(members, "process"))?,
        version: short_count_at(members, "version"),
        variables: variables_at(alloc, members, "variables")?,
    })
}

/// The values that the fields of a variables line ask to be set.
pub fn update_in(alloc: Global, members: &[Member]) -> Result<VariableDocumentUpdate, AllocError>
    ensures { IfOk result (λ update. update ≡ update_of (object_of members.now)) }
{
    Ok(VariableDocumentUpdate {
        scope: key_at(members, "key"),
        local: flag_at(members, "local"),
        variables: variables_at(alloc, members, "variables")?,
    })
}

/// The jobs that the fields of an activate ask for.
pub fn activation_in(alloc: Global, members: &[Member]) -> Result<JobBatchActivate, AllocError>
    ensures { IfOk result (λ activation. activation ≡ activation_of (object_of members.now)) }
{
    Ok(JobBatchActivate {
        kind: Text::of(alloc, text_at(members, "type"))?,
        worker: Text::of(alloc, text_at(members, "worker"))?,
        timeout: count_at(members, "timeout"),
        most: short_count_at(members, "max"),
    })
}

/// The job that the fields of a complete end, with its results.
pub fn completion_in(alloc: Global, members: &[Member]) -> Result<JobComplete, AllocError>
    ensures { IfOk result (λ completion. completion ≡ completing_of (object_of members.now)) }
{
    Ok(JobComplete {
        key: key_at(members, "key"),
        variables: variables_at(alloc, members, "variables")?,
    })
}

/// The job that the fields of a fail say has failed.
pub fn failure_in(alloc: Global, members: &[Member]) -> Result<JobFailure, AllocError>
    ensures { IfOk result (λ failure. failure ≡ failure_of (object_of members.now)) }
{
    Ok(JobFailure {
        key: key_at(members, "key"),
        retries: short_count_at(members, "retries"),
        text: Text::of(alloc, text_at(members, "message"))?,
    })
}

/// The job that the fields of a throw end, by an error of this code.
pub fn thrown_in(alloc: Global, members: &[Member]) -> Result<JobError, AllocError>
    ensures { IfOk result (λ thrown. thrown ≡ thrown_of (object_of members.now)) }
{
    Ok(JobError {
        key: key_at(members, "key"),
        code: Text::of(alloc, text_at(members, "code"))?,
    })
}

/// The tries that the fields of a retries line leave a job.
pub fn retries_in(members: &[Member]) -> JobRetries
    ensures { result ≡ retries_of (object_of members.now) }
{
    JobRetries {
        key: key_at(members, "key"),
        retries: short_count_at(members, "retries"),
    }
}

/// The message that the fields of a publish ask for.
pub fn message_in(alloc: Global, members: &[Member]) -> Result<MessagePublish, AllocError>
    ensures { IfOk result (λ message. message ≡ message_of (object_of members.now)) }
{
    Ok(MessagePublish {
        name: Text::of(alloc, text_at(members, "name"))?,
        correlation_key: Text::of(alloc, text_at(members, "correlationKey"))?,
        time_to_live: count_at(members, "timeToLive"),
        id: Text::of(alloc, text_at(members, "messageId"))?,
        variables: variables_at(alloc, members, "variables")?,
    })
}
