ghost use Rattle.std.specs.Prelude.{◌≡◌, Some, None, OnOk, IsErrOf};
ghost use Rattle.zb_tokens.specs.MoveStart.{fits_start, play_start};

use std::alloc::Global;
use zb_base::{Key, TryCopy};
use zb_board::{Game, GameFault, new_cell};
use zb_instance_records::Role;
use zb_tokens::Start;

/// Whether a process may be instantiated.
pub fn fits_start(game: &Game, s: &Start) -> bool
    ensures { result ≡ fits_start game.now s.now }
{
    game.model(s.definition).is_some()
}

/// Plays that a process is instantiated.
pub fn start(game: &mut Game, alloc: Global, s: Start) -> Result<(), GameFault>
    ensures played { OnOk result (play_start game.old s ≡ Some game.new) }
    ensures illegal { IsErrOf result GameFault.Illegal → play_start game.old s ≡ None }
    ensures kept { IsErrOf result GameFault.Illegal → game.new ≡ game.old }
{
    let Some(model) = game.model(s.definition) else {
        return Err(GameFault::Illegal);
    };
    let node = model.model().process.copy(alloc)?;
    let cell = new_cell(
        alloc,
        s.key,
        Key::new(0),
        s.definition,
        node,
        Role::Plain,
        false,
    );
    game.add_cell(cell)?;
    Ok(())
}
