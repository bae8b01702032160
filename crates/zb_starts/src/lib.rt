//! The locks of messages, the instances that messages have started, and the processes that start by messages.
#![tactic(auto)]

mod change;
mod ids;
mod locks;
mod message_starts;
mod starters;
mod starts;

pub use change::Change;
pub use ids::Ids;
pub use locks::Locks;
pub use message_starts::MessageStarts;
pub use starters::Starters;
pub use starts::Starts;
