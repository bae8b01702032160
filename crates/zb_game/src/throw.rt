ghost use Rattle.std.specs.Prelude.{◌≡◌, Some, None, OnOk, IsErrOf};
ghost use Rattle.zb_tokens.specs.MoveThrow.{fits_throw, play_throw};

use zb_board::{Game, GameFault};
use zb_tokens::{Mark, Thrown};
use zb_values::awaits_work;

/// Whether an error may be thrown in a cell.
pub fn fits_throw(game: &Game, t: &Thrown) -> bool
    ensures { result ≡ fits_throw game.now t.now }
{
    match game.cell(t.cell) {
        Some(cell) => awaits_work(game, cell),
        None => false,
    }
}

/// Plays that an error is thrown in a cell.
pub fn throw(game: &mut Game, t: Thrown) -> Result<(), GameFault>
    ensures played { OnOk result (play_throw game.old t ≡ Some game.new) }
    ensures illegal { IsErrOf result GameFault.Illegal → play_throw game.old t ≡ None }
    ensures kept { IsErrOf result GameFault.Illegal → game.new ≡ game.old }
{
    game.put_mark(t.cell, Mark::Thrown(t.code))
}
