//! The lines of a source, and replies into a sink.
#![tactic(auto)]

mod reader;
mod sender;

pub use reader::{LineReader, Next};
pub use sender::send;
