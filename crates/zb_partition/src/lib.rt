//! A partition: a log of batches on a disk, what they come to, and one command after the other on top.
#![tactic(auto)]

mod fault;
mod laws;
mod opening;
mod partition;
mod record;

pub use fault::OpenFault;
pub use laws::one_log;
pub use partition::{Partition, Stopped};
