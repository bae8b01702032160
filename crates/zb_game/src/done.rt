ghost use Rattle.std.specs.Prelude.{◌≡◌, Some, None, OnOk, IsErrOf};
ghost use Rattle.zb_tokens.specs.MoveDone.{fits_done, play_done};

use zb_base::Key;
use zb_board::{Game, GameFault};
use zb_tokens::Mark;
use zb_values::awaits_work;

/// Whether the work that a cell waits for may be done.
pub fn fits_done(game: &Game, key: Key) -> bool
    ensures { result ≡ fits_done game.now key }
{
    match game.cell(key) {
        Some(cell) => awaits_work(game, cell),
        None => false,
    }
}

/// Plays that the work that a cell waits for is done.
pub fn done(game: &mut Game, key: Key) -> Result<(), GameFault>
    ensures played { OnOk result (play_done game.old key ≡ Some game.new) }
    ensures illegal { IsErrOf result GameFault.Illegal → play_done game.old key ≡ None }
    ensures kept { IsErrOf result GameFault.Illegal → game.new ≡ game.old }
{
    game.put_mark(key, Mark::Done)
}
