ghost use Rattle.std.specs.Prelude.{◌≡◌, Some, None, OnOk, IsErrOf, filter};
ghost use Rattle.std.specs.List.{list_any};
ghost use Rattle.zb_faults.specs.Elements.{is_boundary_of};
ghost use Rattle.zb_tokens.specs.MoveHalt.{fits_halt, is_alive, is_interrupted, play_halt};
ghost use Rattle.zb_places.specs.Places.{held_tokens};
ghost use Rattle.zb_game.specs.Searches.{interrupts_among};

use std::alloc::Global;
use zb_base::{Key, List};
use zb_board::{Game, GameFault, is_inner, is_root};
use zb_graph::Graph;
use zb_groups::Groups;
use zb_places::stands_coming;
use zb_process::Node;
use zb_tokens::{Cell, Phase, Token};

/// Whether a cell may begin to terminate.
pub fn fits_halt(game: &Game, key: Key) -> bool
    ensures { result ≡ fits_halt game.now key }
{
    match game.cell(key) {
        Some(cell) => is_alive(cell)
            && (is_root(cell) || game.is_doomed(cell) || is_interrupted(game, cell)),
        None => false,
    }
}

// Whether a boundary event interrupts a cell; that of a body doesn't interrupt a run in it.
fn is_interrupted(game: &Game, cell: &Cell) -> bool
    ensures { result ≡ is_interrupted game.now cell.now }
{
    if is_inner(cell) {
        return false;
    }
    match game.model(cell.definition) {
        Some(model) => is_interrupted_in(model, game.tokens(), cell),
        None => false,
    }
}

/// Plays that a cell begins to terminate.
pub fn halt(game: &mut Game, alloc: Global, key: Key) -> Result<(), GameFault>
    ensures played { OnOk result (play_halt game.old key ≡ Some game.new) }
    ensures illegal { IsErrOf result GameFault.Illegal → play_halt game.old key ≡ None }
    ensures kept { IsErrOf result GameFault.Illegal → game.new ≡ game.old }
{
    game.put_in_phase(alloc, key, Phase::Terminating, List::empty(alloc))?;
    game.empty_scope(alloc, key)?;
    game.look_at(key);
    Ok(())
}

// Whether a cell has neither completed nor begun to terminate.
fn is_alive(cell: &Cell) -> bool
    ensures { result ≡ is_alive cell.now }
{
    cell.phase != Phase::Leaving && cell.phase != Phase::Terminating
}

// The same in its model. It goes through the boundary events at the node of the cell, and for each that interrupts
// through the tokens in the scope of the cell.
fn is_interrupted_in(model: &Graph, tokens: &Groups<Token>, cell: &Cell) -> bool
    ensures { result ≡ list_any (interrupts_among cell.now.scope (held_tokens tokens.now)) (filter (is_boundary_of cell.now.node) model.now.nodes) }
{
    for number in model.bounds_of(cell.node.as_str()) {
        if interrupts_among(cell.scope, tokens, model.node(*number)) {
            return true;
        }
    }
    false
}

// Whether a boundary event interrupts, and a token stands before it in this scope.
fn interrupts_among(scope: Key, tokens: &Groups<Token>, event: &Node) -> bool
    ensures { result ≡ interrupts_among scope (held_tokens tokens.now) event.now }
{
    event.cancel && stands_coming(scope, event.id.as_str(), "", tokens)
}
