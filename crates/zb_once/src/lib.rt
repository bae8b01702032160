//! Messages between partitions, in words of their own: whatever becomes of what partitions send one another, a message is correlated with a process at most once.
#![tactic(auto)]

mod laws;

pub use laws::messages_are_correlated_once;
