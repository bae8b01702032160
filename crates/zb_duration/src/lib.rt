//! When a timer is due: dates and durations, as texts write them.
#![tactic(auto)]

mod fault;
mod form;
mod timer;

pub use fault::DueFault;
pub use form::TimeForm;
pub use timer::due;
