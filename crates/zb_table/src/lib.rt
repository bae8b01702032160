//! Rows in the order of their keys.
#![tactic(auto)]

mod edit;
mod iter;
mod row;
mod search;
mod table;

pub use edit::Edit;
pub use iter::Iter;
pub use row::{Query, Row, Timed};
pub use table::Table;
