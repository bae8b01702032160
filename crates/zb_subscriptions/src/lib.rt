//! The subscriptions at the home of their messages, and those of the element instances that wait for them.
#![tactic(auto)]

mod opened;
mod process_subscriptions;
mod subscriptions;
mod waiting;

pub use process_subscriptions::ProcessSubscriptions;
pub use subscriptions::Subscriptions;
