//! The board of a game of tokens, what is kept beside it so that a move needs no walk, and how both change.
#![tactic(auto)]

mod below;
mod edits;
mod game;
mod keys;
mod kinds;
mod lookups;
mod marks;
mod models;
mod roles;

pub use edits::new_cell;
pub use game::{Game, GameFault};
pub use kinds::{
    chooses, chooses_by_event, holds_tokens, is_sequential, is_service_at, multi_at, role_at,
    terminates_at, undoes,
};
pub use marks::{error_of, is_unset};
pub use roles::{has_item, is_body, is_inner, is_root, next_item, owes_none};
