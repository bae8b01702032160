//! The game of tokens: what stands on a board, which moves are legal and what they lead to, who is forced to move;
//! with their laws.
#![tactic(auto)]

mod board;
mod boxed;
mod copies;
mod keys;
mod laws;

pub use board::{
    Assigned, Assignments, Awaited, AwaitedMessage, Catch, Cell, Deployed, Enter, Incident, Inner,
    Leave, Mark, Move, Mover, Open, Opening, Phase, Spot, Start, Take, Thrown, Token, Triggered,
    Undo,
};
pub use boxed::BoxedModel;
pub use keys::place_number;
pub use laws::{
    doomed_cells_end, ended_scopes_are_emptied, entries_take_first_tokens,
    errors_are_caught_by_their_code, gateways_choose_one_flow, halted_cells_are_emptied,
    incidents_stay, mappings_are_evaluated_first, models_stay, moves_leave_others_alone,
    outputs_come_before_exits, quiet_games_rest, stuck_cells_wait, taken_flows_make_one_token,
    visible_variables_are_those_seen,
};
