//! What partitions send one another until an event ends it, and to whom; what is said of a message that came.
#![tactic(auto)]

mod laws;
mod packets;
mod partitions;
mod sending;
mod verdicts;

pub use laws::all_but_answers_are_kept;
pub use packets::distribute;
pub use partitions::{home_known, partition_known, partition_of_key};
pub use sending::{Sending, ends_sending, sending_in};
pub use verdicts::verdict;
