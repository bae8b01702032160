//! Rows in the order in which they came, found by their keys.
#![tactic(auto)]

mod arrivals;
mod copies;
mod others;

pub use arrivals::Arrivals;
pub use copies::copy_of;
