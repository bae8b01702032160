ghost use Rattle.std.specs.Prelude.{◌≡◌, Some, None, OnOk, IsErrOf};
ghost use Rattle.zb_tokens.specs.MoveGone.{fits_gone, play_gone};

use std::alloc::Global;
use zb_base::Key;
use zb_board::{Game, GameFault};
use zb_tokens::Phase;

/// Whether a cell has terminated.
pub fn fits_gone(game: &Game, key: Key) -> bool
    ensures { result ≡ fits_gone game.now key }
{
    match game.cell(key) {
        Some(cell) => cell.phase == Phase::Terminating && !game.has_child(key),
        None => false,
    }
}

/// Plays that a cell has terminated.
pub fn gone(game: &mut Game, alloc: Global, key: Key) -> Result<(), GameFault>
    ensures played { OnOk result (play_gone game.old key ≡ Some game.new) }
    ensures illegal { IsErrOf result GameFault.Illegal → play_gone game.old key ≡ None }
    ensures kept { IsErrOf result GameFault.Illegal → game.new ≡ game.old }
{
    game.take_away(key)?;
    game.take_tokens(alloc, key)?;
    Ok(())
}
