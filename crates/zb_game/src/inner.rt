ghost use Rattle.std.specs.Prelude.{◌≡◌, None, OnOk, IsErrOf, Some};
ghost use Rattle.zb_tokens.specs.MoveInner.{fits_inner, play_inner, runs_next};

use std::alloc::Global;
use zb_base::TryCopy;
use zb_board::{Game, GameFault, has_item, is_body, is_sequential, new_cell};
use zb_instance_records::Role;
use zb_tokens::{Cell, Inner, Phase};

/// Whether a body may begin a run.
pub fn fits_inner(game: &Game, inner: &Inner) -> bool
    ensures { result ≡ fits_inner game.now inner.now }
{
    match game.cell(inner.body) {
        Some(cell) => runs_next(game, cell),
        None => false,
    }
}

// Whether a cell is an active body, of which an item is left, and whose runs come at once, or none is there.
fn runs_next(game: &Game, cell: &Cell) -> bool
    ensures { result ≡ runs_next game.now cell.now }
{
    if !is_body(cell) || cell.phase != Phase::Active {
        return false;
    }
    match game.model(cell.definition) {
        Some(model) => {
            has_item(cell) && (!is_sequential(model, cell) || !game.has_child(cell.key))
        }
        None => false,
    }
}

/// Plays that a body begins a run for its next item.
pub fn begin_run(game: &mut Game, alloc: Global, inner: Inner) -> Result<(), GameFault>
    ensures played { OnOk result (play_inner game.old inner ≡ Some game.new) }
    ensures illegal { IsErrOf result GameFault.Illegal → play_inner game.old inner ≡ None }
    ensures kept { IsErrOf result GameFault.Illegal → game.new ≡ game.old }
{
    let Inner { key, body } = inner;
    let Some(cell) = game.cell(body) else {
        return Err(GameFault::Illegal);
    };
    let node = cell.node.copy(alloc)?;
    let run = new_cell(alloc, key, body, cell.definition, node, Role::Inner, false);
    game.put_taken(body)?;
    game.add_cell(run)?;
    Ok(())
}
