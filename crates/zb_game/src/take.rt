ghost use Rattle.std.specs.Prelude.{◌≡◌, Some, None, IfOk, OnOk, IsErrOf};
ghost use Rattle.zb_tokens.specs.MoveTake.{fits_take, is_first, play_take, rest_of, spot_behind, spot_by};

use crate::leave::leaving;
use std::alloc::{AllocError, Global};
use zb_arrivals::copy_of;
use zb_base::{List, Text, TryCopy};
use zb_board::{Game, GameFault, chooses_by_event};
use zb_graph::Graph;
use zb_tokens::{Cell, Phase, Spot, Take, Token};

/// Whether a cell leaves, and owes this flow first.
pub fn fits_take(game: &Game, t: &Take) -> bool
    ensures { result ≡ fits_take game.now t.now }
{
    match game.cell(t.key) {
        Some(cell) => cell.phase == Phase::Leaving
            && is_first(t.flow.as_str(), cell.owed.as_slice()),
        None => false,
    }
}

/// Plays that a cell takes the first flow that it owes.
pub fn take(game: &mut Game, alloc: Global, t: Take) -> Result<(), GameFault>
    ensures played { OnOk result (play_take game.old t ≡ Some game.new) }
    ensures illegal { IsErrOf result GameFault.Illegal → play_take game.old t ≡ None }
    ensures kept { IsErrOf result GameFault.Illegal → game.new ≡ game.old }
{
    let Some(cell) = game.cell(t.key) else {
        return Err(GameFault::Illegal);
    };
    let scope = cell.scope;
    let owed = rest_of(alloc, cell.owed.as_slice())?;
    let spot = spot_behind(game, alloc, cell, t.flow)?;
    leaving(game, alloc, t.key, owed)?;
    game.add_token(alloc, Token { scope, spot })?;
    Ok(())
}

// Where the token stands that goes out of the node of a cell by a flow.
fn spot_behind(game: &Game, alloc: Global, cell: &Cell, flow: Text) -> Result<Spot, AllocError>
    ensures { IfOk result (λ spot. spot ≡ spot_behind game.now cell.now flow) }
{
    match game.model(cell.definition) {
        Some(model) => spot_by(alloc, model, cell.node.as_str(), flow),
        None => Ok(Spot::OnFlow(flow)),
    }
}

// The same out of a node of a model: before the target at an event gateway, whose event has come there, and on the flow
// at any other node.
fn spot_by(alloc: Global, model: &Graph, node: &str, flow: Text) -> Result<Spot, AllocError>
    ensures { IfOk result (λ spot. spot ≡ spot_by model.now node.now flow) }
{
    if !chooses_by_event(model, node) {
        return Ok(Spot::OnFlow(flow));
    }
    match model.flow_with(flow.as_str()) {
        Some(found) => Ok(Spot::BeforeNode(found.to.copy(alloc)?)),
        None => Ok(Spot::BeforeNode(Text::empty(alloc))),
    }
}

// Whether this flow is the first one owed.
fn is_first(flow: &str, owed: &[Text]) -> bool
    ensures { result ≡ is_first flow.now owed.now }
{
    match owed {
        [first, ..] => flow == first.as_str(),
        [] => false,
    }
}

// A copy of the flows owed but the first.
fn rest_of(alloc: Global, owed: &[Text]) -> Result<List<Text>, AllocError>
    ensures { IfOk result (λ rest. rest ≡ rest_of owed.now) }
{
    match owed {
        [_, rest @ ..] => copy_of(alloc, rest),
        [] => Ok(List::empty(alloc)),
    }
}
