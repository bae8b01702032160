// The cells that bodies and compensation events begin next.
ghost use Rattle.std.specs.Prelude.{◌≡◌, List, IfOk};
ghost use Rattle.zb_model.specs.declared.record.Event.{Event};
ghost use Rattle.zb_state.specs.Beginnings.{fitting_event, inner_event, undo_event, next_inner, next_undo};
ghost use Rattle.zb_state.specs.State.{partition_of, IsStateOf};

use crate::State;
use std::alloc::{AllocError, Global};
use zb_board::Game;
use zb_course::event_of;
use zb_game::{fits, next_handler};
use zb_model::{Event, Key, TryCopy};
use zb_tokens::{Inner, Move, Undo};

impl State {
    /// The event by which the body with a key begins its next run. `None` exactly where it may begin none: no active
    /// body has the key, no item is left, or its runs come one after the other, and one is there. It costs what
    /// `zb_game::fits` does, and a copy of the id of the body's node.
    pub fn next_inner(&self, alloc: Global, body: Key) -> Result<Option<Event>, AllocError>
        ensures { (es : List Event) → IsStateOf es self.now
            → IfOk result (λ event. event ≡ next_inner (partition_of self.now) es body) }
    {
        inner_event(alloc, self.game(), self.next_key(), body)
    }

    /// The event by which the compensation event with a key runs its next handler. `None` exactly where it may run none:
    /// no active cell at a compensation event has the key, a handler runs in it, or no activity with a handler is left
    /// that has finished in its scope. It costs what `zb_game::next_handler` and `zb_game::fits` do, and a copy of
    /// the id of the handler.
    pub fn next_undo(&self, alloc: Global, event: Key) -> Result<Option<Event>, AllocError>
        ensures { (es : List Event) → IsStateOf es self.now
            → IfOk result (λ made. made ≡ next_undo (partition_of self.now) es event) }
    {
        undo_event(alloc, self.game(), self.next_key(), event)
    }
}

// The event by which a body begins its next run under a key in a game, where it may begin one.
fn inner_event(alloc: Global, game: &Game, key: Key, body: Key) -> Result<Option<Event>, AllocError>
    ensures { IfOk result (λ event. event ≡ inner_event key body game.now) }
{
    fitting_event(alloc, game, Move::Inner(Inner { key, body }))
}

// The event by which a compensation event runs its next handler under a key in a game, where it may run one.
fn undo_event(alloc: Global, game: &Game, key: Key, event: Key) -> Result<Option<Event>, AllocError>
    ensures { IfOk result (λ made. made ≡ undo_event key event game.now) }
{
    let Some(cell) = game.cell(event) else {
        return Ok(None);
    };
    match next_handler(game, cell) {
        Some(handler) => {
            let node = handler.copy(alloc)?;
            fitting_event(alloc, game, Move::Undo(Undo { key, event, node }))
        }
        None => Ok(None),
    }
}

// The event that shows a move in a game, where the move fits that.
fn fitting_event(alloc: Global, game: &Game, made: Move) -> Result<Option<Event>, AllocError>
    ensures { IfOk result (λ event. event ≡ fitting_event game.now made) }
{
    if fits(game, &made) {
        event_of(alloc, made, game)
    } else {
        Ok(None)
    }
}
