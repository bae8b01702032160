// How a cell that completes is left: by the flows that may go out of its node, or at an exclusive gateway by the one that
// is chosen.
ghost use Rattle.std.specs.Prelude.{◌≡◌, ◌∷◌, [], Some, IfOk, filter, slice_get};
ghost use Rattle.std.specs.Str.{bytes_eq};
ghost use Rattle.zb_tokens.specs.declared.board.Move.TheVariants as moves;
ghost use Rattle.zb_tokens.specs.Names.{value_seen};
ghost use Rattle.zb_tokens.specs.MoveLeave.{exit_of, flows_on};
ghost use Rattle.zb_tokens.specs.Forced.{leave_by};
ghost use Rattle.zb_values.specs.Exits.{decided_by, exit_at, exit_in};

use crate::conditions::truth_at;
use crate::flows::{default_of, flows_on, is_default};
use crate::hindrances::{given, stop_by, undecided};
use std::alloc::{AllocError, Global};
use zb_base::{Key, List, TryCopy};
use zb_board::{Game, owes_none};
use zb_faults::is_exclusive_gateway;
use zb_graph::Graph;
use zb_process::{Flow, Node};
use zb_tokens::{Cell, Leave, Move};

/// How a cell is left, where an incident gets this key; by no flow where it owes none.
pub fn leave_by(game: &Game, alloc: Global, key: Key, cell: &Cell) -> Result<Move, AllocError>
    ensures { IfOk result (λ move. move ≡ leave_by key cell.now (exit_of game.now cell.now)) }
{
    if owes_none(cell) {
        return Ok(left_by_none(alloc, cell.key));
    }
    match game.model(cell.definition) {
        Some(model) => leave_in(game, alloc, model, key, cell),
        None => Ok(left_by_none(alloc, cell.key)),
    }
}

// The same in its model.
fn leave_in(
    game: &Game,
    alloc: Global,
    model: &Graph,
    key: Key,
    cell: &Cell,
) -> Result<Move, AllocError>
    ensures { IfOk result (λ move. move ≡ leave_by key cell.now (exit_in model.now game.now cell.now)) }
{
    match model.node_with(cell.node.as_str()) {
        Some(node) => {
            if is_exclusive_gateway(node.kind) {
                return leave_at(game, alloc, model, node, key, cell);
            }
            left_by_all(alloc, model, cell)
        }
        None => left_by_all(alloc, model, cell),
    }
}

// The same at an exclusive gateway. It goes through the flows out of it, up to the one that decides.
fn leave_at(
    game: &Game,
    alloc: Global,
    model: &Graph,
    node: &Node,
    key: Key,
    cell: &Cell,
) -> Result<Move, AllocError>
    ensures { IfOk result (λ move. move ≡ leave_by key cell.now (exit_at (value_seen game.now cell.now.key) node.now (filter (λ f. bytes_eq f.from cell.now.node) model.now.flows))) }
{
    for number in model.outs_of(cell.node.as_str()) {
        let flow = model.flow(*number);
        if let Some(exit) = decided(game, alloc, model, node, *number, flow, key, cell)? {
            return Ok(exit);
        }
    }
    match default_of(model, node, cell.node.as_str()) {
        Some(flow) => left_by(alloc, cell.key, flow),
        None => undecided(alloc, key, cell, node),
    }
}

// How the cell is left at an exclusive gateway, if this flow, which has a number, decides it.
fn decided(
    game: &Game,
    alloc: Global,
    model: &Graph,
    node: &Node,
    number: u32,
    flow: &Flow,
    key: Key,
    cell: &Cell,
) -> Result<Option<Move>, AllocError>
    requires { slice_get model.now.flows number ≡ Some flow.now }
    ensures { IfOk result (λ move. move ≡ decided_by (value_seen game.now cell.now.key) node.now flow.now key cell.now) }
{
    if is_default(node, flow) {
        return Ok(None);
    }
    match given(alloc, truth_at(alloc, game, cell.key, model, number))? {
        Ok(true) => Ok(Some(left_by(alloc, cell.key, flow)?)),
        Ok(false) => Ok(None),
        Err(hindrance) => Ok(Some(stop_by(key, cell, hindrance))),
    }
}

// The cell with a key is left by no flow.
fn left_by_none(alloc: Global, cell: Key) -> Move
    ensures { result ≡ moves.Leave (record { key = cell; owed = [] }) }
{
    Move::Leave(Leave {
        key: cell,
        owed: List::empty(alloc),
    })
}

// The cell with a key is left by one flow.
fn left_by(alloc: Global, cell: Key, flow: &Flow) -> Result<Move, AllocError>
    ensures { IfOk result (λ move. move ≡ moves.Leave (record { key = cell; owed = flow.now.id ∷ [] })) }
{
    let mut owed = List::empty(alloc);
    owed.push(flow.id.copy(alloc)?)?;
    Ok(Move::Leave(Leave { key: cell, owed }))
}

// A cell is left by all flows that may go out of its node.
fn left_by_all(alloc: Global, model: &Graph, cell: &Cell) -> Result<Move, AllocError>
    ensures { IfOk result (λ move. move ≡ moves.Leave (record { key = cell.now.key; owed = flows_on model.now cell.now })) }
{
    let owed = flows_on(alloc, model, cell)?;
    Ok(Move::Leave(Leave {
        key: cell.key,
        owed,
    }))
}
