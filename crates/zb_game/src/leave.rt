ghost use Rattle.std.specs.Prelude.{◌≡◌, Some, None, IfOk, OnOk, IsErrOf, is_some, if◌then◌else◌};
ghost use Rattle.std.specs.Option.{option_map_or};
ghost use Rattle.zb_tokens.specs.Choice.{gateway_of};
ghost use Rattle.zb_tokens.specs.Handlers.{can_be_undone};
ghost use Rattle.zb_tokens.specs.MoveLeave.{are_among, ends_scope, fits_leave, flows_of, is_single, leaving, may_owe, noted_finished, play_leave, scope_ended};

use crate::handlers::can_be_undone;
use std::alloc::{AllocError, Global};
use zb_base::{Key, List, Text, TryCopy};
use zb_board::{Game, GameFault, chooses, is_root, owes_none, terminates_at};
use zb_tokens::{Cell, Leave, Phase};
use zb_values::are_among_flows;

/// Whether a cell has completed, and these flows may go out of its node.
pub fn fits_leave(game: &Game, l: &Leave) -> bool
    ensures { result ≡ fits_leave game.now l.now }
{
    match game.cell(l.key) {
        Some(cell) => cell.phase == Phase::Completing && may_owe(game, cell, l.owed.as_slice()),
        None => false,
    }
}

// Whether a cell may owe these flows: they may go out of its node, in order, and are one at an exclusive gateway.
fn may_owe(game: &Game, cell: &Cell, ids: &[Text]) -> bool
    ensures { result ≡ may_owe game.now cell.now ids.now }
{
    are_among_its(game, cell, ids) && (!is_at_gateway(game, cell) || is_single(ids))
}

// Whether these are flows that may go out of the node of a cell, in order.
#[tactic(auto, using(zb_board::proofs::AskingLemmas::compared))]
fn are_among_its(game: &Game, cell: &Cell, ids: &[Text]) -> bool
    ensures { result ≡ are_among ids.now (flows_of game.now cell.now) }
{
    if owes_none(cell) {
        return ids.is_empty();
    }
    match game.model(cell.definition) {
        Some(model) => are_among_flows(ids, model, cell),
        None => ids.is_empty(),
    }
}

// Whether a cell that flows leave is at an exclusive gateway.
fn is_at_gateway(game: &Game, cell: &Cell) -> bool
    ensures { result ≡ is_some (gateway_of game.now cell.now) }
{
    if owes_none(cell) {
        return false;
    }
    match game.model(cell.definition) {
        Some(model) => chooses(model, cell.node.as_str()),
        None => false,
    }
}

/// Plays that a cell has completed. At a terminate end event it ends its scope, and an activity that can be undone is kept
/// there.
pub fn leave(game: &mut Game, alloc: Global, l: Leave) -> Result<(), GameFault>
    ensures played { OnOk result (play_leave game.old l ≡ Some game.new) }
    ensures illegal { IsErrOf result GameFault.Illegal → play_leave game.old l ≡ None }
    ensures kept { IsErrOf result GameFault.Illegal → game.new ≡ game.old }
{
    let Some(cell) = game.cell(l.key) else {
        return Err(GameFault::Illegal);
    };
    let scope = cell.scope;
    let ends = ends_scope(game, cell);
    let finished = node_finished(game, alloc, cell)?;
    leaving(game, alloc, l.key, l.owed)?;
    leave_behind(game, alloc, scope, ends, finished)?;
    Ok(())
}

// The id of the node of a cell, if that can be undone once it has finished.
fn node_finished(game: &Game, alloc: Global, cell: &Cell) -> Result<Option<Text>, AllocError>
    ensures { IfOk result (λ node. node ≡ (if can_be_undone game.now cell.now then Some cell.now.node else None)) }
{
    if can_be_undone(game, cell) {
        let node = cell.node.copy(alloc)?;
        Ok(Some(node))
    } else {
        Ok(None)
    }
}

// What a cell makes of its scope as it leaves: that ends, or one more activity has finished there.
fn leave_behind(
    game: &mut Game,
    alloc: Global,
    scope: Key,
    ends: bool,
    finished: Option<Text>,
) -> Result<(), AllocError>
    ensures { OnOk result (game.new ≡ (if ends then scope_ended scope game.old
        else option_map_or (λ node. noted_finished scope node game.old) finished game.old)) }
{
    if ends {
        return end(game, alloc, scope);
    }
    if let Some(node) = finished {
        game.put_finished(scope, node)?;
        game.look_at(scope);
    }
    Ok(())
}

// Whether a cell is at a terminate end event.
fn ends_scope(game: &Game, cell: &Cell) -> bool
    ensures { result ≡ ends_scope game.now cell.now }
{
    if is_root(cell) {
        return false;
    }
    match game.model(cell.definition) {
        Some(model) => terminates_at(model, cell.node.as_str()),
        None => false,
    }
}

// Ends a scope, and empties it.
fn end(game: &mut Game, alloc: Global, scope: Key) -> Result<(), AllocError>
    ensures { OnOk result (game.new ≡ scope_ended scope game.old) }
{
    game.put_ending(alloc, scope)?;
    game.empty_scope(alloc, scope)
}

/// A cell leaves and owes these flows; where there are none it is gone.
pub fn leaving(game: &mut Game, alloc: Global, key: Key, owed: List<Text>) -> Result<(), GameFault>
    ensures left { OnOk result (leaving owed key game.old ≡ Some game.new) }
    ensures none { IsErrOf result GameFault.Illegal → leaving owed key game.old ≡ None }
    ensures kept { IsErrOf result GameFault.Illegal → game.new ≡ game.old }
{
    if owed.as_slice().is_empty() {
        game.take_away(key)
    } else {
        game.put_in_phase(alloc, key, Phase::Leaving, owed)
    }
}

// Whether there is one of these, and no other.
fn is_single(ids: &[Text]) -> bool
    ensures { result ≡ is_single ids.now }
{
    match ids {
        [_] => true,
        _ => false,
    }
}
