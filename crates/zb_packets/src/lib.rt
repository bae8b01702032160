//! Answers to packets, and what takes a packet.
#![tactic(auto)]

mod answers;
mod delivery;

pub use answers::{answer_packet, is_answer};
pub use delivery::delivery_of;
