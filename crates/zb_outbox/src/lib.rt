//! What a partition has sent, and sends again until an event ends it.
#![tactic(auto)]

mod keys;
mod outbox;
mod queries;

pub use outbox::Outbox;
