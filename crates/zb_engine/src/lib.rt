//! The engine of one thread: partitions, and what carries requests out on them and delivers what they send one another.
#![tactic(auto)]

mod asking;
mod committing;
mod delivering;
mod desk;
mod next;
mod solo;
mod starting;

pub use solo::Solo;
