//! Process models, as they are laid out in JSON.
#![tactic(auto)]

mod kinds;
mod leaves;
mod making;
mod place;
mod placing;
mod reading;
mod shapes;
mod sources;
mod table;
mod values;

pub use leaves::{is_between, is_short};
pub use reading::{model_place, read_model};
