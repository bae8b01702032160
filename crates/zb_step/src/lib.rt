//! What a command leads to: why it is rejected, or the events that it makes and those that they force.
#![tactic(auto)]

mod acknowledge;
mod activate;
mod cancel;
mod commands;
mod complete;
mod correlate;
mod create;
mod deploy;
mod distribute;
mod emitting;
mod ending;
mod expire;
mod fail;
mod go_on;
mod outcome;
mod publish;
mod receive;
mod rejection;
mod resolve;
mod retries;
mod subscribe;
mod throw;
mod time_out;
mod trigger;
mod update;

pub use commands::{Own, reason};
pub use emitting::emit;
pub use outcome::outcome_of;
