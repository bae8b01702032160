//! The player of moves: which moves fit a game of tokens, what a move makes of it, and who is forced to move.
#![tactic(auto)]

mod assign;
mod bounds;
mod done;
mod enter;
mod errors;
mod finish;
mod forced;
mod gone;
mod halt;
mod handlers;
mod incident;
mod inner;
mod leave;
mod moves;
mod open;
mod player;
mod stand;
mod start;
mod take;
mod throw;
mod trigger;
mod undo;

pub use errors::catcher;
pub use forced::{is_quiet, next_mover};
pub use handlers::next_handler;
pub use moves::move_of;
pub use player::{fits, make, play};
pub use trigger::{is_interrupting, may_open, waits_at};
