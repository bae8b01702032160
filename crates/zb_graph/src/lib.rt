//! Process models with their nodes and flows numbered, and found by their names, and their expressions compiled.
#![tactic(auto)]

mod codes;
mod graph;
mod index;
mod label;
mod places;

pub use graph::{Graph, compile};
