ghost use Rattle.std.specs.Prelude.{◌≡◌, ◌∷◌, ◌++◌, [], Some, None, true, false, OnOk, IsErrOf};
ghost use Rattle.std.specs.List.{list_any};
ghost use Rattle.zb_tokens.specs.Board.{new_cell, spot_of};
ghost use Rattle.zb_tokens.specs.Edits.{is_none_of, without_first};
ghost use Rattle.zb_tokens.specs.MoveEnter.{fits_enter, play_enter, stands_at};

use std::alloc::Global;
use zb_base::Key;
use zb_board::{Game, GameFault, new_cell, role_at};
use zb_instance_records::Role;
use zb_places::{are_on_each, has_come, joins, stands_coming};
use zb_tokens::Enter;
use zb_values::flows_in;

/// Whether a node may be entered.
pub fn fits_enter(game: &Game, e: &Enter) -> bool
    ensures { result ≡ fits_enter game.now e.now }
{
    let Some(cell) = game.cell(e.scope) else {
        return false;
    };
    let Some(model) = game.model(cell.definition) else {
        return false;
    };
    let node = e.node.as_str();
    let via = e.via.as_str();
    !game.is_called_off(e.scope) && has_come(model, game.tokens(), e.scope, node, via)
}

/// Plays that a node is entered.
pub fn enter(game: &mut Game, alloc: Global, e: Enter) -> Result<(), GameFault>
    ensures played { OnOk result (play_enter game.old e ≡ Some game.new) }
    ensures illegal { IsErrOf result GameFault.Illegal → play_enter game.old e ≡ None }
    ensures kept { IsErrOf result GameFault.Illegal → game.new ≡ game.old }
{
    let Some(cell) = game.cell(e.scope) else {
        return Err(GameFault::Illegal);
    };
    let definition = cell.definition;
    let Some(model) = game.model(definition) else {
        return Err(GameFault::Illegal);
    };
    let role = role_at(model, e.node.as_str());
    if !joins(model, e.node.as_str()) {
        return enter_alone(game, alloc, definition, role, e);
    }
    if !are_on_each(model, e.scope, e.node.as_str(), game.tokens()) {
        return Err(GameFault::Illegal);
    }
    let flows = flows_in(alloc, model, e.node.as_str())?;
    game.take_each(e.scope, flows.as_slice())?;
    let cell = new_cell(alloc, e.key, e.scope, definition, e.node, role, false);
    game.add_cell(cell)?;
    Ok(())
}

// Plays that one token enters a node, where a cell begins in this role.
fn enter_alone(
    game: &mut Game,
    alloc: Global,
    definition: Key,
    role: Role,
    e: Enter,
) -> Result<(), GameFault>
    ensures stood { OnOk result (list_any (stands_at e.scope (spot_of e.via e.node)) game.old.tokens ≡ true) }
    ensures entered { OnOk result (game.new ≡ record game.old {
      cells = game.old.cells ++ new_cell e.key e.scope definition e.node role (is_none_of e.via) ∷ [];
      tokens = without_first (stands_at e.scope (spot_of e.via e.node)) game.old.tokens;
    }) }
    ensures illegal { IsErrOf result GameFault.Illegal → list_any (stands_at e.scope (spot_of e.via e.node)) game.old.tokens ≡ false }
    ensures kept { IsErrOf result GameFault.Illegal → game.new ≡ game.old }
{
    if !stands_coming(e.scope, e.node.as_str(), e.via.as_str(), game.tokens()) {
        return Err(GameFault::Illegal);
    }
    let before = comes_by_none(&e);
    let cell = new_cell(alloc, e.key, e.scope, definition, e.node, role, before);
    game.enter_coming(e.via.as_str(), cell)?;
    Ok(())
}

// Whether the token that enters comes by no flow.
#[tactic(auto, using(zb_board::proofs::AskingLemmas::compared))]
fn comes_by_none(e: &Enter) -> bool
    ensures { result ≡ is_none_of e.now.via }
{
    e.via.as_str().is_empty()
}
