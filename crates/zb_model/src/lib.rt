//! The types of zbd as plain data: its records, and what they are made of.
#![tactic(auto)]

mod batch_format;
mod command_format;
mod event_format;
mod record;
mod stop;
mod upshot;

pub use record::{Batch, Command, Event, Heading, Outcome, Packet, Rejection, RejectionKind};
pub use stop::{Note, Stop, TableFault};
pub use upshot::read_heading;
pub use zb_base::{
    Key, List, Moment, Pair, PartitionId, Text, TryCopy, Value, Variable, Vars, home_of,
};
pub use zb_exchange_records::{
    JobActivated, JobBatchActivate, JobBatchActivated, JobComplete, JobCreated, JobError,
    JobFailure, JobRetries, MessageCorrelation, MessagePublish, MessagePublished,
    MessageStartEventSubscriptionCorrelated, MessageSubscription, MessageSubscriptionDelete,
    ProcessMessageSubscriptionCreating, ProcessMessageSubscriptionDeleting, SubscribedMessage,
};
pub use zb_instance_records::{
    CommandDistribution, DefinitionLink, ElementActivated, ElementActivating, ElementCompleted,
    ElementMigrated, IncidentCreated, IncidentKind, IncidentResolved, ProcessDefinition,
    ProcessEventTriggered, ProcessInstanceCreationCreate, ProcessInstanceMigration, Role,
    ScopeVariable, SequenceFlowTaken, TimerCreated, VariableDocumentUpdate,
};
pub use zb_process::{Expr, ExprNode, Flow, Mapping, Model, Multi, Node, NodeKind, Operator};
