//! Rows in the order of their keys, found by the cells at which they stand.
#![tactic(auto)]

mod kept;
mod rows;

pub use kept::Kept;
pub use rows::Rows;
