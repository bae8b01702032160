//! The definitions of a log: by their keys, and by their processes and versions.
#![tactic(auto)]

mod definitions;
mod process;
mod version;

pub use definitions::Definitions;
