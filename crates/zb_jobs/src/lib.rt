//! The table of jobs that a partition keeps.
#![tactic(auto)]

mod change;
mod jobs;

pub use jobs::Jobs;
