//! Rows in the order in which they came, each in a group, and at a place there.
#![tactic(auto)]

mod groups;
mod held;

pub use groups::Groups;
pub use held::Grouped;
