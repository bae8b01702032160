//! What follows by itself: what comes behind an event, and what is forced, turn by turn.
#![tactic(auto)]

mod assigning;
mod beginning;
mod behind;
mod catches;
mod making;
mod settling;
mod starting;
mod turning;

pub use assigning::Place;
pub use beginning::{Beginning, root};
pub use behind::{WithBehind, repair_event};
pub use catches::{ClosedCatches, closing_of};
pub use making::{Each, Find, FindEach, Found, Maker};
pub use settling::settle;
pub use starting::EachStarting;
