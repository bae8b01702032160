//! Shows the log of a partition, a line for each record.
#![tactic(auto)]

mod fault;
mod lines;
mod names;
mod parts;
mod printing;
mod show;

pub use fault::ShowFault;
pub use lines::{put_batch, records_in};
pub use names::{command_key, command_names, element_of, event_key, event_names, rejection_name};
pub use printing::read_batch;
pub use show::{Shown, show_log};
