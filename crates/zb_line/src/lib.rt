//! Members in their order, each once, and keys under pairs of texts.
#![tactic(auto)]

mod firsts;
mod keys;
mod labels;
mod line;
mod place;
mod texts;

pub use labels::Labels;
pub use line::Line;
