//! The table of timers that a partition keeps.
#![tactic(auto)]

mod change;
mod timers;

pub use timers::Timers;
