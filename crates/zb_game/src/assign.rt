ghost use Rattle.std.specs.Prelude.{◌≡◌, Some, None, OnOk, IsErrOf};
ghost use Rattle.zb_tokens.specs.MoveAssign.{fits_assign, fits_update, play_assign};

use zb_board::{Game, GameFault};
use zb_tokens::Assigned;
use zb_values::{cell_has_name, has_name};

/// Whether a cell may get a variable.
pub fn fits_assign(game: &Game, a: &Assigned) -> bool
    ensures { result ≡ fits_assign game.now a.now }
{
    match game.cell(a.scope) {
        Some(cell) => !cell_has_name(a.name.as_str(), cell),
        None => false,
    }
}

/// Whether a variable may get another value.
pub fn fits_update(game: &Game, a: &Assigned) -> bool
    ensures { result ≡ fits_update game.now a.now }
{
    has_name(game, a.scope, a.name.as_str())
}

/// Plays that a variable gets a value, its first or another one.
pub fn assign(game: &mut Game, a: Assigned) -> Result<(), GameFault>
    ensures played { OnOk result (play_assign game.old a ≡ Some game.new) }
    ensures illegal { IsErrOf result GameFault.Illegal → play_assign game.old a ≡ None }
    ensures kept { IsErrOf result GameFault.Illegal → game.new ≡ game.old }
{
    game.put_variable(a.scope, a.name, a.value)
}
