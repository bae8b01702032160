//! The state of a partition: what its log's events come to.
#![tactic(auto)]

mod facts;
mod listing;
mod out;
mod refusal;
mod state;
mod turn;

pub use facts::Facts;
pub use out::Out;
pub use refusal::Refusal;
pub use state::State;
pub use turn::Turn;
