//! What a partition's events come to beside its game: the buffered messages and the tables, as they take an event in.
#![tactic(auto)]

mod keys;
mod messages;
mod named;
mod tables;

pub use keys::greatest_counter_of;
pub use messages::{Buffered, Messages};
pub use named::Named;
pub use tables::Tables;
