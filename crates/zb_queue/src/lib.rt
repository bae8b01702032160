//! Rows in the order in which they came, each found by a key that several may have.
#![tactic(auto)]

mod numbers;
mod queue;

pub use queue::{Queue, Queued};
