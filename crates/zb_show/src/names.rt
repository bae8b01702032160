// What records are called.
ghost use Rattle.std.specs.Prelude.{◌≡◌};
ghost use Rattle.zb_show.specs.Names as names;

use zb_model::{Command, Event, Key, RejectionKind};

/// The value type and the intent of a command.
pub fn command_names(command: &Command) -> (&'static str, &'static str)
    ensures { (result.0.now, result.1.now) ≡ names.command_names command.now }
{
    match command {
        Command::DeploymentCreate(_) => ("DEPLOYMENT", "CREATE"),
        Command::ProcessInstanceCreationCreate(_) => ("PROCESS_INSTANCE_CREATION", "CREATE"),
        Command::ProcessInstanceCancel(_) => ("PROCESS_INSTANCE", "CANCEL"),
        Command::VariableDocumentUpdate(_) => ("VARIABLE_DOCUMENT", "UPDATE"),
        Command::JobBatchActivate(_) => ("JOB_BATCH", "ACTIVATE"),
        Command::JobComplete(_) => ("JOB", "COMPLETE"),
        Command::JobFail(_) => ("JOB", "FAIL"),
        Command::JobThrowError(_) => ("JOB", "THROW_ERROR"),
        Command::JobUpdateRetries(_) => ("JOB", "UPDATE_RETRIES"),
        Command::JobTimeOut(_) => ("JOB", "TIME_OUT"),
        Command::IncidentResolve(_) => ("INCIDENT", "RESOLVE"),
        Command::MessagePublish(_) => ("MESSAGE", "PUBLISH"),
        Command::MessageExpire(_) => ("MESSAGE", "EXPIRE"),
        Command::TimerTrigger(_) => ("TIMER", "TRIGGER"),
        Command::ProcessInstanceMigrationMigrate(_) => ("PROCESS_INSTANCE_MIGRATION", "MIGRATE"),
        Command::ProcessInstanceBatchContinue => ("PROCESS_INSTANCE_BATCH", "CONTINUE"),
        Command::DeploymentDistribute(_) => ("DEPLOYMENT", "DISTRIBUTE"),
        Command::CommandDistributionAcknowledge(_) => ("COMMAND_DISTRIBUTION", "ACKNOWLEDGE"),
        Command::MessageSubscriptionCreate(_) => ("MESSAGE_SUBSCRIPTION", "CREATE"),
        Command::ProcessMessageSubscriptionCreate(_) => ("PROCESS_MESSAGE_SUBSCRIPTION", "CREATE"),
        Command::ProcessMessageSubscriptionCorrelate(_) => (
            "PROCESS_MESSAGE_SUBSCRIPTION",
            "CORRELATE",
        ),
        Command::MessageSubscriptionCorrelate(_) => ("MESSAGE_SUBSCRIPTION", "CORRELATE"),
        Command::MessageSubscriptionReject(_) => ("MESSAGE_SUBSCRIPTION", "REJECT"),
        Command::MessageSubscriptionDelete(_) => ("MESSAGE_SUBSCRIPTION", "DELETE"),
        Command::ProcessMessageSubscriptionDelete(_) => ("PROCESS_MESSAGE_SUBSCRIPTION", "DELETE"),
    }
}

/// The value type and the intent of an event.
pub fn event_names(event: &Event) -> (&'static str, &'static str)
    ensures { (result.0.now, result.1.now) ≡ names.event_names event.now }
{
    match event {
        Event::ProcessCreated(_) => ("PROCESS", "CREATED"),
        Event::DeploymentCreated(_) => ("DEPLOYMENT", "CREATED"),
        Event::CommandDistributionDistributing(_) => ("COMMAND_DISTRIBUTION", "DISTRIBUTING"),
        Event::CommandDistributionAcknowledged(_) => ("COMMAND_DISTRIBUTION", "ACKNOWLEDGED"),
        Event::CommandDistributionFinished(_) => ("COMMAND_DISTRIBUTION", "FINISHED"),
        Event::ProcessInstanceCreationCreated(_) => ("PROCESS_INSTANCE_CREATION", "CREATED"),
        Event::ElementActivating(_) => ("PROCESS_INSTANCE", "ELEMENT_ACTIVATING"),
        Event::ElementActivated(_) => ("PROCESS_INSTANCE", "ELEMENT_ACTIVATED"),
        Event::ElementCompleting(_) => ("PROCESS_INSTANCE", "ELEMENT_COMPLETING"),
        Event::ElementCompleted(_) => ("PROCESS_INSTANCE", "ELEMENT_COMPLETED"),
        Event::ElementTerminating(_) => ("PROCESS_INSTANCE", "ELEMENT_TERMINATING"),
        Event::ElementTerminated(_) => ("PROCESS_INSTANCE", "ELEMENT_TERMINATED"),
        Event::SequenceFlowTaken(_) => ("PROCESS_INSTANCE", "SEQUENCE_FLOW_TAKEN"),
        Event::ElementMigrated(_) => ("PROCESS_INSTANCE", "ELEMENT_MIGRATED"),
        Event::ProcessInstanceMigrationMigrated(_) => ("PROCESS_INSTANCE_MIGRATION", "MIGRATED"),
        Event::JobCreated(_) => ("JOB", "CREATED"),
        Event::JobActivated(_) => ("JOB", "ACTIVATED"),
        Event::JobTimedOut(_) => ("JOB", "TIMED_OUT"),
        Event::JobCompleted(_) => ("JOB", "COMPLETED"),
        Event::JobCanceled(_) => ("JOB", "CANCELED"),
        Event::JobFailed(_) => ("JOB", "FAILED"),
        Event::JobErrorThrown(_) => ("JOB", "ERROR_THROWN"),
        Event::JobRetriesUpdated(_) => ("JOB", "RETRIES_UPDATED"),
        Event::JobBatchActivated(_) => ("JOB_BATCH", "ACTIVATED"),
        Event::TimerCreated(_) => ("TIMER", "CREATED"),
        Event::TimerTriggered(_) => ("TIMER", "TRIGGERED"),
        Event::TimerCanceled(_) => ("TIMER", "CANCELED"),
        Event::ProcessEventTriggered(_) => ("PROCESS_EVENT", "TRIGGERED"),
        Event::MessagePublished(_) => ("MESSAGE", "PUBLISHED"),
        Event::MessageExpired(_) => ("MESSAGE", "EXPIRED"),
        Event::MessageStartEventSubscriptionCorrelated(_) => (
            "MESSAGE_START_EVENT_SUBSCRIPTION",
            "CORRELATED",
        ),
        Event::MessageSubscriptionCreated(_) => ("MESSAGE_SUBSCRIPTION", "CREATED"),
        Event::MessageSubscriptionCorrelating(_) => ("MESSAGE_SUBSCRIPTION", "CORRELATING"),
        Event::MessageSubscriptionCorrelated(_) => ("MESSAGE_SUBSCRIPTION", "CORRELATED"),
        Event::MessageSubscriptionRejected(_) => ("MESSAGE_SUBSCRIPTION", "REJECTED"),
        Event::MessageSubscriptionDeleted(_) => ("MESSAGE_SUBSCRIPTION", "DELETED"),
        Event::ProcessMessageSubscriptionCreating(_) => (
            "PROCESS_MESSAGE_SUBSCRIPTION",
            "CREATING",
        ),
        Event::ProcessMessageSubscriptionCreated(_) => ("PROCESS_MESSAGE_SUBSCRIPTION", "CREATED"),
        Event::ProcessMessageSubscriptionCorrelated(_) => (
            "PROCESS_MESSAGE_SUBSCRIPTION",
            "CORRELATED",
        ),
        Event::ProcessMessageSubscriptionDeleted(_) => ("PROCESS_MESSAGE_SUBSCRIPTION", "DELETED"),
        Event::ProcessMessageSubscriptionDeleting(_) => (
            "PROCESS_MESSAGE_SUBSCRIPTION",
            "DELETING",
        ),
        Event::VariableCreated(_) => ("VARIABLE", "CREATED"),
        Event::VariableUpdated(_) => ("VARIABLE", "UPDATED"),
        Event::VariableDocumentUpdated(_) => ("VARIABLE_DOCUMENT", "UPDATED"),
        Event::IncidentCreated(_) => ("INCIDENT", "CREATED"),
        Event::IncidentResolved(_) => ("INCIDENT", "RESOLVED"),
    }
}

/// The first key field of a command, or 0 where it has none.
pub fn command_key(command: &Command) -> Key
    ensures { result ≡ names.command_key command.now }
{
    match command {
        Command::DeploymentCreate(_) => Key::new(0),
        Command::ProcessInstanceCreationCreate(_) => Key::new(0),
        Command::ProcessInstanceCancel(key) => *key,
        Command::VariableDocumentUpdate(command) => command.scope,
        Command::JobBatchActivate(_) => Key::new(0),
        Command::JobComplete(command) => command.key,
        Command::JobFail(command) => command.key,
        Command::JobThrowError(command) => command.key,
        Command::JobUpdateRetries(command) => command.key,
        Command::JobTimeOut(key) => *key,
        Command::IncidentResolve(key) => *key,
        Command::MessagePublish(_) => Key::new(0),
        Command::MessageExpire(key) => *key,
        Command::TimerTrigger(key) => *key,
        Command::ProcessInstanceMigrationMigrate(command) => command.key,
        Command::ProcessInstanceBatchContinue => Key::new(0),
        Command::DeploymentDistribute(command) => command.key,
        Command::CommandDistributionAcknowledge(command) => command.key,
        Command::MessageSubscriptionCreate(command) => command.subscription,
        Command::ProcessMessageSubscriptionCreate(key) => *key,
        Command::ProcessMessageSubscriptionCorrelate(command) => command.subscription,
        Command::MessageSubscriptionCorrelate(command) => command.subscription,
        Command::MessageSubscriptionReject(command) => command.subscription,
        Command::MessageSubscriptionDelete(command) => command.subscription,
        Command::ProcessMessageSubscriptionDelete(key) => *key,
    }
}

/// The first key that an event names.
pub fn event_key(event: &Event) -> Key
    ensures { result ≡ names.event_key event.now }
{
    match event {
        Event::ProcessCreated(event) => event.key,
        Event::DeploymentCreated(event) => event.key,
        Event::CommandDistributionDistributing(event) => event.key,
        Event::CommandDistributionAcknowledged(event) => event.key,
        Event::CommandDistributionFinished(key) => *key,
        Event::ProcessInstanceCreationCreated(event) => event.key,
        Event::ElementActivating(event) => event.key,
        Event::ElementActivated(event) => event.key,
        Event::ElementCompleting(key) => *key,
        Event::ElementCompleted(event) => event.key,
        Event::ElementTerminating(key) => *key,
        Event::ElementTerminated(key) => *key,
        Event::SequenceFlowTaken(event) => event.key,
        Event::ElementMigrated(event) => event.key,
        Event::ProcessInstanceMigrationMigrated(event) => event.key,
        Event::JobCreated(event) => event.key,
        Event::JobActivated(event) => event.key,
        Event::JobTimedOut(key) => *key,
        Event::JobCompleted(key) => *key,
        Event::JobCanceled(key) => *key,
        Event::JobFailed(event) => event.key,
        Event::JobErrorThrown(event) => event.key,
        Event::JobRetriesUpdated(event) => event.key,
        Event::JobBatchActivated(event) => event.key,
        Event::TimerCreated(event) => event.key,
        Event::TimerTriggered(key) => *key,
        Event::TimerCanceled(key) => *key,
        Event::ProcessEventTriggered(event) => event.cell,
        Event::MessagePublished(event) => event.key,
        Event::MessageExpired(key) => *key,
        Event::MessageStartEventSubscriptionCorrelated(event) => event.message,
        Event::MessageSubscriptionCreated(event) => event.subscription,
        Event::MessageSubscriptionCorrelating(event) => event.subscription,
        Event::MessageSubscriptionCorrelated(event) => event.subscription,
        Event::MessageSubscriptionRejected(event) => event.subscription,
        Event::MessageSubscriptionDeleted(key) => *key,
        Event::ProcessMessageSubscriptionCreating(event) => event.subscription,
        Event::ProcessMessageSubscriptionCreated(key) => *key,
        Event::ProcessMessageSubscriptionCorrelated(event) => event.subscription,
        Event::ProcessMessageSubscriptionDeleted(key) => *key,
        Event::ProcessMessageSubscriptionDeleting(event) => event.subscription,
        Event::VariableCreated(event) => event.scope,
        Event::VariableUpdated(event) => event.scope,
        Event::VariableDocumentUpdated(key) => *key,
        Event::IncidentCreated(event) => event.key,
        Event::IncidentResolved(event) => event.key,
    }
}

/// The element of an event: a node, or the flow that was taken; `-` where it names none.
pub fn element_of(event: &Event) -> &str
    ensures { result.now ≡ names.element_of event.now }
{
    match event {
        Event::ElementActivating(event) => event.node.as_str(),
        Event::SequenceFlowTaken(event) => event.flow.as_str(),
        Event::ElementMigrated(event) => event.node.as_str(),
        Event::JobActivated(event) => event.node.as_str(),
        Event::TimerCreated(event) => event.node.as_str(),
        Event::ProcessEventTriggered(event) => event.node.as_str(),
        Event::ProcessMessageSubscriptionCreating(event) => event.node.as_str(),
        _ => "-",
    }
}

/// The name of a kind of rejections.
pub fn rejection_name(kind: RejectionKind) -> &'static str
    ensures { result.now ≡ names.rejection_name kind }
{
    match kind {
        RejectionKind::InvalidArgument => "INVALID_ARGUMENT",
        RejectionKind::NotFound => "NOT_FOUND",
        RejectionKind::AlreadyExists => "ALREADY_EXISTS",
        RejectionKind::InvalidState => "INVALID_STATE",
    }
}
