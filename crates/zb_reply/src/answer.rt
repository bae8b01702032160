ghost use Rattle.std.specs.Prelude.{◌≡◌, Option, Some, None, IfOk};
ghost use Rattle.std.specs.List.{filter_map};
ghost use Rattle.zb_model.specs.declared.record.Event.{Event};
ghost use Rattle.zb_wire.specs.First.{first_told};
ghost use Rattle.zb_reply.specs.declared.reply.Reply.{Reply};
ghost use Rattle.zb_reply.specs.Reply.{deploy_answer, create_answer, publish_answer, deployed_of, activated_of, activated_job, accepted_answer, answer_of};

use crate::{ActivatedJob, Created, DeployedReply, Reply};
use std::alloc::{AllocError, Global};
use zb_model::{Batch, Command, Event, JobActivated, List, Outcome, ProcessDefinition, TryCopy};

/// The reply to the request whose command became this batch, if it has one.
#[tactic(auto, unfolding(crate::specs::Reply::answer_of))]
pub fn reply_of(alloc: Global, batch: &Batch) -> Result<Option<Reply>, AllocError>
    ensures { IfOk result (λ reply. reply ≡ answer_of batch.now) }
{
    match &batch.outcome {
        Outcome::Accepted(events) => accepted_answer(alloc, &batch.command, events.as_slice()),
        Outcome::Rejected(rejection) => match rejection.copy(alloc) {
            Ok(rejection) => Ok(Some(Reply::Rejected(rejection))),
            Err(AllocError) => Err(AllocError),
        },
    }
}

// The reply to a command that was accepted with these events.
fn accepted_answer(
    alloc: Global,
    command: &Command,
    events: &[Event],
) -> Result<Option<Reply>, AllocError>
    ensures { IfOk result (λ reply. reply ≡ accepted_answer command.now events.now) }
{
    match command {
        Command::DeploymentCreate(_) => first_told::<Deploying>(alloc, events),
        Command::ProcessInstanceCreationCreate(_) => first_told::<Creating>(alloc, events),
        Command::ProcessInstanceCancel(key) => Ok(Some(Reply::Cancel(*key))),
        Command::VariableDocumentUpdate(update) => Ok(Some(Reply::Variables(update.scope))),
        Command::JobBatchActivate(_) => match activated_jobs(alloc, events) {
            Ok(jobs) => Ok(Some(Reply::Activate(jobs))),
            Err(AllocError) => Err(AllocError),
        },
        Command::JobComplete(completion) => Ok(Some(Reply::Complete(completion.key))),
        Command::JobFail(failure) => Ok(Some(Reply::Fail(failure.key))),
        Command::JobThrowError(thrown) => Ok(Some(Reply::Throw(thrown.key))),
        Command::JobUpdateRetries(update) => Ok(Some(Reply::Retries(update.key))),
        Command::MessagePublish(_) => first_told::<Publishing>(alloc, events),
        Command::IncidentResolve(key) => Ok(Some(Reply::Resolve(*key))),
        _ => Ok(None),
    }
}

// By which event an accepted command of a kind is answered.
trait Answering {
    // The reply that an event tells.
    ghost answer: { Event → Option Reply };

    fn reply(alloc: Global, event: &Event) -> Result<Option<Reply>, AllocError>
        ensures { IfOk result (λ reply. reply ≡ answer event.now) };
}

// A deployment is answered by the definition that it makes.
struct Deploying;

impl Answering for Deploying {
    ghost answer = { deploy_answer };

    fn reply(alloc: Global, event: &Event) -> Result<Option<Reply>, AllocError> {
        match event {
            Event::ProcessCreated(created) => {
                Ok(Some(Reply::Deploy(deployed_of(alloc, created)?)))
            }
            _ => Ok(None),
        }
    }
}

// A creation is, by the instance.
struct Creating;

impl Answering for Creating {
    ghost answer = { create_answer };

    fn reply(_alloc: Global, event: &Event) -> Result<Option<Reply>, AllocError> {
        match event {
            Event::ProcessInstanceCreationCreated(created) => Ok(Some(Reply::Create(Created {
                definition: created.definition,
                instance: created.key,
            }))),
            _ => Ok(None),
        }
    }
}

// A publish is, by the message.
struct Publishing;

impl Answering for Publishing {
    ghost answer = { publish_answer };

    fn reply(_alloc: Global, event: &Event) -> Result<Option<Reply>, AllocError> {
        match event {
            Event::MessagePublished(published) => Ok(Some(Reply::Publish(published.key))),
            _ => Ok(None),
        }
    }
}

// The reply that the first event tells that tells one.
fn first_told<A: Answering>(alloc: Global, events: &[Event]) -> Result<Option<Reply>, AllocError>
    ensures { IfOk result (λ reply. reply ≡ first_told A.answer events.now) }
{
    for event in events {
        if let Some(reply) = A::reply(alloc, event)? {
            return Ok(Some(reply));
        }
    }
    Ok(None)
}

// What is told of a definition.
fn deployed_of(alloc: Global, created: &ProcessDefinition) -> Result<DeployedReply, AllocError>
    ensures { IfOk result (λ deployed. deployed ≡ deployed_of created.now) }
{
    Ok(DeployedReply {
        definition: created.key,
        process: created.model.process.copy(alloc)?,
        version: created.version,
    })
}

// The jobs that a worker was given by these events.
fn activated_jobs(alloc: Global, events: &[Event]) -> Result<List<ActivatedJob>, AllocError>
    ensures { IfOk result (λ jobs. jobs ≡ filter_map activated_job events.now) }
{
    let mut jobs = List::empty(alloc);
    for event in events {
        if let Event::JobActivated(activated) = event {
            jobs.push(activated_of(alloc, activated)?)?;
        }
    }
    Ok(jobs)
}

// What is told of a job that a worker was given.
fn activated_of(alloc: Global, activated: &JobActivated) -> Result<ActivatedJob, AllocError>
    ensures { IfOk result (λ job. job ≡ activated_of activated.now) }
{
    Ok(ActivatedJob {
        deadline: activated.deadline,
        element: activated.node.copy(alloc)?,
        instance: activated.instance,
        job: activated.key,
        retries: activated.retries,
        kind: activated.kind.copy(alloc)?,
        variables: activated.variables.copy(alloc)?,
    })
}
