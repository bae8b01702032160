//! The words of the program's command line.
#![tactic(auto)]

mod app;
mod fault;
mod files;
mod plan;
mod refusal;
mod value;
mod verb;

pub use fault::PlanFault;
pub use plan::{ClockKind, GenPlan, LogPlan, Plan, ServePlan, plan_of, usage_text};
