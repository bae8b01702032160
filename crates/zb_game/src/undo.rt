ghost use Rattle.std.specs.Prelude.{◌≡◌, None, OnOk, IsErrOf, Some};
ghost use Rattle.zb_tokens.specs.MoveUndo.{fits_undo, play_undo, runs_handler};

use crate::handlers::next_handler;
use std::alloc::Global;
use zb_board::{Game, GameFault, new_cell};
use zb_instance_records::Role;
use zb_tokens::{Cell, Phase, Undo};

/// Whether a compensation event may run a handler.
pub fn fits_undo(game: &Game, undo: &Undo) -> bool
    ensures { result ≡ fits_undo game.now undo.now }
{
    match game.cell(undo.event) {
        Some(cell) => runs_handler(game, undo.node.as_str(), cell),
        None => false,
    }
}

// Whether a cell is an active compensation event in which no handler runs, and runs this one next.
fn runs_handler(game: &Game, id: &str, cell: &Cell) -> bool
    ensures { result ≡ runs_handler game.now id.now cell.now }
{
    if cell.phase != Phase::Active || game.has_child(cell.key) {
        return false;
    }
    match next_handler(game, cell) {
        Some(handler) => id == handler.as_str(),
        None => false,
    }
}

/// Plays that a compensation event runs the handler of the activity that finished last in its scope.
pub fn begin_handler(game: &mut Game, alloc: Global, undo: Undo) -> Result<(), GameFault>
    ensures played { OnOk result (play_undo game.old undo ≡ Some game.new) }
    ensures illegal { IsErrOf result GameFault.Illegal → play_undo game.old undo ≡ None }
    ensures kept { IsErrOf result GameFault.Illegal → game.new ≡ game.old }
{
    let Undo { key, event, node } = undo;
    let Some(cell) = game.cell(event) else {
        return Err(GameFault::Illegal);
    };
    let scope = cell.scope;
    let handler = new_cell(
        alloc,
        key,
        event,
        cell.definition,
        node,
        Role::Handler,
        false,
    );
    game.put_undone(alloc, scope)?;
    game.add_cell(handler)?;
    game.look_at(scope);
    Ok(())
}
