//! The log of a partition: a file of frames, each behind a gate byte.
#![tactic(auto)]

mod fault;
mod framing;
mod gate_log;
mod preparing;
mod reading;
mod scan;
mod step;
mod volume;
mod walking;
mod window;
mod writing;

pub use fault::StoreFault;
pub use framing::framed;
pub use gate_log::GateLog;
pub use reading::one_reading;
pub use scan::{Found, Scan};
pub use volume::Volume;
