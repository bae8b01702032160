//! Lines to requests.
#![tactic(auto)]

mod faults;
mod fields;
mod given;
mod kind;
mod making;
mod members;
mod ops;
mod reading;
mod request;
mod values;
mod variables;

pub use given::Given;
pub use reading::{LONGEST_LINE, longest_shown, read_line};
pub use request::{LineFault, Request};
