//! The server: sessions over the partitions of a run, and the top call.
#![tactic(auto)]

mod closing;
mod opening;
mod run;
mod running;
mod top;

pub use run::{Cause, Closed};
pub use running::{Ran, serve_by};
pub use top::{plan_for, serve, serve_alone};
pub use zb_session::Session;
