//! Serves a workload, in memory, and tells what came of it.
#![tactic(auto)]

mod counting;
mod fault;
mod printing;
mod serving;
mod tally;

pub use fault::GenFault;
pub use serving::{Generated, generate};
pub use tally::Tally;
