//! What is wrong with a process model.
#![tactic(auto)]

mod boundaries;
mod checking;
mod counting;
mod counts;
mod finding;
mod flows;
mod ids;
mod naming;
mod notes;
mod pairs;
mod parts;
mod scopes;

pub use checking::{ModelFault, check};
