//! Histories of the engine: the steps of all partitions in one list, what happens at most once in it, and what a crash may leave of it; with their laws.
#![tactic(auto)]

mod entry;
mod laws;
mod packets;
mod sent;

pub use entry::{Entry, partition_at};
pub use laws::{
    cuts_are_histories, entries_are_pinned, histories_go_on, logs_have_entries, once_in_a_history,
    packets_in_outboxes_were_sent, parts_are_logs_of_steps, steps_are_message_steps,
    views_are_as_told,
};
pub use sent::sent_in;
