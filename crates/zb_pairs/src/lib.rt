//! Keys that are kept under numbers.
#![tactic(auto)]

mod under;

pub use under::{first_under, first_under_that, keys_under};
