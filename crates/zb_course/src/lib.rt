//! A game, with what is kept beside it, and the moves that events show.
#![tactic(auto)]

mod course;
mod events;
mod moves;
mod versions;

pub use course::Course;
pub use events::{event_of, role_on};
