//! Records of deployments, process instances, timers, variables and incidents: their fields, and how they
//! stand in bytes.
#![tactic(auto)]

mod deployment;
mod happening;
mod instance;

pub use deployment::{CommandDistribution, DefinitionLink, ProcessDefinition};
pub use happening::{
    IncidentCreated, IncidentKind, IncidentResolved, ScopeVariable, TimerCreated,
    VariableDocumentUpdate,
};
pub use instance::{
    ElementActivated, ElementActivating, ElementCompleted, ElementMigrated, ProcessEventTriggered,
    ProcessInstanceCreationCreate, ProcessInstanceMigration, Role, SequenceFlowTaken,
};
