//! Rows in the orders in which they are asked for: by the moments for which they wait, and under labels.
#![tactic(auto)]

mod changes;
mod listed;
mod lists;

pub use listed::Listed;
pub use lists::Lists;
