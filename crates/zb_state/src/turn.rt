// What a mover does.
ghost use Rattle.std.specs.Prelude.{◌≡◌, IfOk, option_map};
ghost use Rattle.zb_tokens.specs.Mappings.{assignments_of};
ghost use Rattle.zb_rules.specs.Shown.{event_of};

use std::alloc::{AllocError, Global};
use zb_board::Game;
use zb_course::event_of;
use zb_model::Event;
use zb_tokens::{Assignments, Move};
use zb_values::assignments_of;

/// What a mover does: the event of its move, and what is set in front of that.
#[derive(Drop)]
pub struct Turn {
    pub assignments: Option<Assignments>,
    pub event: Event,
}

/// What is done by a forced move; `None` of a move that is never forced. It costs what `assignments_of` and
/// `zb_course::event_of` do.
pub fn turn_by(alloc: Global, made: Move, game: &Game) -> Result<Option<Turn>, AllocError>
    ensures { IfOk result (λ turn. turn ≡ option_map (λ e. record { assignments = assignments_of game.now made; event = e }) (event_of game.now made)) }
{
    let assignments = match assignments_of(game, alloc, &made) {
        Ok(assignments) => assignments,
        Err(AllocError) => {
            drop(made);
            return Err(AllocError);
        }
    };
    match event_of(alloc, made, game) {
        Ok(Some(event)) => Ok(Some(Turn { assignments, event })),
        Ok(None) => Ok(None),
        Err(AllocError) => {
            drop(assignments);
            Err(AllocError)
        }
    }
}
