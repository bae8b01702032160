ghost use Rattle.std.specs.Prelude.{◌≡◌, Some, None, OnOk, IsErrOf};
ghost use Rattle.zb_tokens.specs.MoveFinish.{acts, fits_finish, is_done, play_finish};

use crate::handlers::has_handler;
use std::alloc::Global;
use zb_base::{Key, List};
use zb_board::{Game, GameFault, has_item, is_body};
use zb_tokens::{Cell, Phase};

/// Whether a cell may begin to complete.
pub fn fits_finish(game: &Game, key: Key) -> bool
    ensures { result ≡ fits_finish game.now key }
{
    match game.cell(key) {
        Some(cell) => cell.phase == Phase::Active && is_done(game, cell),
        None => false,
    }
}

// Whether nothing is left that a cell waits for, no item for which it runs, and no handler that it runs.
fn is_done(game: &Game, cell: &Cell) -> bool
    ensures { result ≡ is_done game.now cell.now }
{
    acts(game, cell) && !(is_body(cell) && has_item(cell) || has_handler(game, cell))
}

/// Whether an active cell acts: nothing is left that it waits for, or a body may begin a run, or a
/// compensation event a handler.
pub fn acts(game: &Game, cell: &Cell) -> bool
    ensures { result ≡ acts game.now cell.now }
{
    match game.model(cell.definition) {
        Some(model) => game.acts_in(model, cell),
        None => false,
    }
}

/// Plays that a cell begins to complete.
pub fn finish(game: &mut Game, alloc: Global, key: Key) -> Result<(), GameFault>
    ensures played { OnOk result (play_finish game.old key ≡ Some game.new) }
    ensures illegal { IsErrOf result GameFault.Illegal → play_finish game.old key ≡ None }
    ensures kept { IsErrOf result GameFault.Illegal → game.new ≡ game.old }
{
    game.put_in_phase(alloc, key, Phase::Completing, List::empty(alloc))
}
