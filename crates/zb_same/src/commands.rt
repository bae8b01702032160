// Commands with what they ask for, and the packets that carry them.
use crate::Same;
use zb_model::{
    Command, CommandDistribution, JobBatchActivate, JobComplete, JobError, JobFailure, JobRetries,
    MessageCorrelation, MessagePublish, MessageSubscription, MessageSubscriptionDelete, Packet,
    ProcessDefinition, ProcessInstanceCreationCreate, ProcessInstanceMigration, SubscribedMessage,
    VariableDocumentUpdate,
};

impl Same for Packet {
    fn is_same(&self, other: &Packet) -> bool {
        same!(self, other; from, to, command)
    }
}

impl Same for Command {
    fn is_same(&self, other: &Command) -> bool {
        use Command::*;
        match (self, other) {
            (DeploymentCreate(a), DeploymentCreate(b)) => a.is_same(b),
            (ProcessInstanceCreationCreate(a), ProcessInstanceCreationCreate(b)) => a.is_same(b),
            (ProcessInstanceCancel(a), ProcessInstanceCancel(b)) => a.is_same(b),
            (VariableDocumentUpdate(a), VariableDocumentUpdate(b)) => a.is_same(b),
            (JobBatchActivate(a), JobBatchActivate(b)) => a.is_same(b),
            (JobComplete(a), JobComplete(b)) => a.is_same(b),
            (JobFail(a), JobFail(b)) => a.is_same(b),
            (JobThrowError(a), JobThrowError(b)) => a.is_same(b),
            (JobUpdateRetries(a), JobUpdateRetries(b)) => a.is_same(b),
            (JobTimeOut(a), JobTimeOut(b)) => a.is_same(b),
            (IncidentResolve(a), IncidentResolve(b)) => a.is_same(b),
            (MessagePublish(a), MessagePublish(b)) => a.is_same(b),
            (MessageExpire(a), MessageExpire(b)) => a.is_same(b),
            (TimerTrigger(a), TimerTrigger(b)) => a.is_same(b),
            (ProcessInstanceMigrationMigrate(a), ProcessInstanceMigrationMigrate(b)) => a.is_same(
                b,
            ),
            (ProcessInstanceBatchContinue, ProcessInstanceBatchContinue) => true,
            (DeploymentDistribute(a), DeploymentDistribute(b)) => a.is_same(b),
            (CommandDistributionAcknowledge(a), CommandDistributionAcknowledge(b)) => a.is_same(b),
            (MessageSubscriptionCreate(a), MessageSubscriptionCreate(b)) => a.is_same(b),
            (ProcessMessageSubscriptionCreate(a), ProcessMessageSubscriptionCreate(b)) => {
                a.is_same(b)
            }
            (ProcessMessageSubscriptionCorrelate(a), ProcessMessageSubscriptionCorrelate(b)) => {
                a.is_same(b)
            }
            (MessageSubscriptionCorrelate(a), MessageSubscriptionCorrelate(b)) => a.is_same(b),
            (MessageSubscriptionReject(a), MessageSubscriptionReject(b)) => a.is_same(b),
            (MessageSubscriptionDelete(a), MessageSubscriptionDelete(b)) => a.is_same(b),
            (ProcessMessageSubscriptionDelete(a), ProcessMessageSubscriptionDelete(b)) => {
                a.is_same(b)
            }
            _ => false,
        }
    }
}

impl Same for ProcessInstanceCreationCreate {
    fn is_same(&self, other: &ProcessInstanceCreationCreate) -> bool {
        same!(self, other; process, version, variables)
    }
}

impl Same for ProcessInstanceMigration {
    fn is_same(&self, other: &ProcessInstanceMigration) -> bool {
        same!(self, other; key, definition, pairs)
    }
}

impl Same for VariableDocumentUpdate {
    fn is_same(&self, other: &VariableDocumentUpdate) -> bool {
        same!(self, other; scope, local, variables)
    }
}

impl Same for JobBatchActivate {
    fn is_same(&self, other: &JobBatchActivate) -> bool {
        same!(self, other; kind, worker, timeout, most)
    }
}

impl Same for JobComplete {
    fn is_same(&self, other: &JobComplete) -> bool {
        same!(self, other; key, variables)
    }
}

impl Same for JobFailure {
    fn is_same(&self, other: &JobFailure) -> bool {
        same!(self, other; key, retries, text)
    }
}

impl Same for JobError {
    fn is_same(&self, other: &JobError) -> bool {
        same!(self, other; key, code)
    }
}

impl Same for JobRetries {
    fn is_same(&self, other: &JobRetries) -> bool {
        same!(self, other; key, retries)
    }
}

impl Same for MessagePublish {
    fn is_same(&self, other: &MessagePublish) -> bool {
        same!(self, other; name, correlation_key, time_to_live, id, variables)
    }
}

impl Same for ProcessDefinition {
    fn is_same(&self, other: &ProcessDefinition) -> bool {
        same!(self, other; key, version, model)
    }
}

impl Same for CommandDistribution {
    fn is_same(&self, other: &CommandDistribution) -> bool {
        same!(self, other; key, partition)
    }
}

impl Same for MessageSubscription {
    fn is_same(&self, other: &MessageSubscription) -> bool {
        same!(self, other; subscription, name, correlation_key, process, cancel)
    }
}

impl Same for MessageCorrelation {
    fn is_same(&self, other: &MessageCorrelation) -> bool {
        same!(self, other; subscription, message, variables)
    }
}

impl Same for SubscribedMessage {
    fn is_same(&self, other: &SubscribedMessage) -> bool {
        same!(self, other; subscription, message)
    }
}

impl Same for MessageSubscriptionDelete {
    fn is_same(&self, other: &MessageSubscriptionDelete) -> bool {
        same!(self, other; subscription, keys)
    }
}
