use std::alloc::{AllocError, Global};
use std::fmt;
use zb_base::{Key, List, Moment, PartitionId, Text, TryCopy};
use zb_exchange_records::{
    JobActivated, JobBatchActivate, JobBatchActivated, JobComplete, JobCreated, JobError,
    JobFailure, JobRetries, MessageCorrelation, MessagePublish, MessagePublished,
    MessageStartEventSubscriptionCorrelated, MessageSubscription, MessageSubscriptionDelete,
    ProcessMessageSubscriptionCreating, ProcessMessageSubscriptionDeleting, SubscribedMessage,
};
use zb_instance_records::{
    CommandDistribution, DefinitionLink, ElementActivated, ElementActivating, ElementCompleted,
    ElementMigrated, IncidentCreated, IncidentResolved, ProcessDefinition, ProcessEventTriggered,
    ProcessInstanceCreationCreate, ProcessInstanceMigration, ScopeVariable, SequenceFlowTaken,
    TimerCreated, VariableDocumentUpdate,
};
use zb_process::Model;

/// A command of a record: what a partition is asked to do.
#[derive(Drop)]
pub enum Command {
    DeploymentCreate(Model),
    ProcessInstanceCreationCreate(ProcessInstanceCreationCreate),
    ProcessInstanceCancel(Key),
    VariableDocumentUpdate(VariableDocumentUpdate),
    JobBatchActivate(JobBatchActivate),
    JobComplete(JobComplete),
    JobFail(JobFailure),
    JobThrowError(JobError),
    JobUpdateRetries(JobRetries),
    JobTimeOut(Key),
    IncidentResolve(Key),
    MessagePublish(MessagePublish),
    MessageExpire(Key),
    TimerTrigger(Key),
    ProcessInstanceMigrationMigrate(ProcessInstanceMigration),
    ProcessInstanceBatchContinue,
    DeploymentDistribute(ProcessDefinition),
    CommandDistributionAcknowledge(CommandDistribution),
    MessageSubscriptionCreate(MessageSubscription),
    ProcessMessageSubscriptionCreate(Key),
    ProcessMessageSubscriptionCorrelate(MessageCorrelation),
    MessageSubscriptionCorrelate(SubscribedMessage),
    MessageSubscriptionReject(SubscribedMessage),
    MessageSubscriptionDelete(MessageSubscriptionDelete),
    ProcessMessageSubscriptionDelete(Key),
}

/// An event of a record: what has happened at a partition.
#[derive(Drop)]
pub enum Event {
    ProcessCreated(ProcessDefinition),
    DeploymentCreated(DefinitionLink),
    CommandDistributionDistributing(CommandDistribution),
    CommandDistributionAcknowledged(CommandDistribution),
    CommandDistributionFinished(Key),
    ProcessInstanceCreationCreated(DefinitionLink),
    ElementActivating(ElementActivating),
    ElementActivated(ElementActivated),
    ElementCompleting(Key),
    ElementCompleted(ElementCompleted),
    ElementTerminating(Key),
    ElementTerminated(Key),
    SequenceFlowTaken(SequenceFlowTaken),
    ElementMigrated(ElementMigrated),
    ProcessInstanceMigrationMigrated(ProcessInstanceMigration),
    JobCreated(JobCreated),
    JobActivated(JobActivated),
    JobTimedOut(Key),
    JobCompleted(Key),
    JobCanceled(Key),
    JobFailed(JobFailure),
    JobErrorThrown(JobError),
    JobRetriesUpdated(JobRetries),
    JobBatchActivated(JobBatchActivated),
    TimerCreated(TimerCreated),
    TimerTriggered(Key),
    TimerCanceled(Key),
    ProcessEventTriggered(ProcessEventTriggered),
    MessagePublished(MessagePublished),
    MessageExpired(Key),
    MessageStartEventSubscriptionCorrelated(MessageStartEventSubscriptionCorrelated),
    MessageSubscriptionCreated(MessageSubscription),
    MessageSubscriptionCorrelating(MessageCorrelation),
    MessageSubscriptionCorrelated(SubscribedMessage),
    MessageSubscriptionRejected(SubscribedMessage),
    MessageSubscriptionDeleted(Key),
    ProcessMessageSubscriptionCreating(ProcessMessageSubscriptionCreating),
    ProcessMessageSubscriptionCreated(Key),
    ProcessMessageSubscriptionCorrelated(SubscribedMessage),
    ProcessMessageSubscriptionDeleted(Key),
    ProcessMessageSubscriptionDeleting(ProcessMessageSubscriptionDeleting),
    VariableCreated(ScopeVariable),
    VariableUpdated(ScopeVariable),
    VariableDocumentUpdated(Key),
    IncidentCreated(IncidentCreated),
    IncidentResolved(IncidentResolved),
}

/// Why a command was rejected, in kind.
#[derive(Clone, Copy, Debug, PartialEq, Eq)]
pub enum RejectionKind {
    InvalidArgument,
    NotFound,
    AlreadyExists,
    InvalidState,
}

/// Why a command was rejected.
#[derive(Drop)]
pub struct Rejection {
    pub kind: RejectionKind,
    pub reason: Text,
}

impl TryCopy for Rejection {
    fn copy(&self, alloc: Global) -> Result<Rejection, AllocError> {
        Ok(Rejection {
            kind: self.kind,
            reason: self.reason.copy(alloc)?,
        })
    }
}

/// What became of a command.
#[derive(Drop)]
pub enum Outcome {
    Rejected(Rejection),
    Accepted(List<Event>),
}

/// One command and what became of it: one step of a partition, whole or not at all.
#[derive(Drop)]
pub struct Batch {
    pub moment: Moment,
    /// How many places of the history its command may rest on.
    pub begin: u64,
    pub command: Command,
    pub outcome: Outcome,
}

impl fmt::Debug for Batch {
    fn fmt<W: fmt::Write>(&self, f: &mut fmt::Formatter<W>) -> fmt::Result {
        write!(f, "Batch of moment {}", self.moment.ms())
    }
}

/// What stands in front of a batch's events.
#[derive(Drop)]
pub struct Heading {
    pub moment: Moment,
    /// How many events follow; none where its command was rejected.
    pub events: u32,
}

/// A command that one partition sends to another.
#[derive(Drop)]
pub struct Packet {
    pub from: PartitionId,
    pub to: PartitionId,
    pub command: Command,
}

// A crate that drops a record proves anew how each of its parts is dropped. One that hands it to these calls doesn't.

impl Command {
    /// Drops it.
    pub fn discard(self) {
        drop(self)
    }
}

impl Batch {
    /// Drops it.
    pub fn discard(self) {
        drop(self)
    }

    /// Drops it, if there is one.
    pub fn discard_any(batch: Option<Batch>) {
        drop(batch)
    }
}
