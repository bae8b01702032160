// The events that cells wait for.
ghost use Rattle.std.specs.Prelude.{◌≡◌, ◌&&◌, false, Some, None, OnOk, IsErrOf, is_none};
ghost use Rattle.std.specs.Option.{option_map_or};
ghost use Rattle.std.specs.Str.{bytes_eq};
ghost use Rattle.zb_faults.specs.Elements.{is_boundary_of};
ghost use Rattle.zb_tokens.specs.Board.{model_under, node_with};
ghost use Rattle.zb_tokens.specs.Catches.{may_be_told, may_open_at, opens_at, waits_itself};
ghost use Rattle.zb_tokens.specs.Mappings.{node_of};
ghost use Rattle.zb_tokens.specs.MoveTrigger.{awaits_event, ends_cell, fits_trigger, is_awaited, is_gateway_cell, is_interrupting, mark_by, play_trigger};

use crate::errors::comes_about;
use std::alloc::Global;
use zb_base::Key;
use zb_board::{Game, GameFault, chooses_by_event, error_of, is_inner, is_root, is_unset};
use zb_faults::is_boundary_of;
use zb_graph::Graph;
use zb_tokens::{Catch, Cell, Mark, Phase, Spot, Token, Triggered};
use zb_values::{awaits, waits_itself_at};

/// Whether a cell waits for the event of a node: it is active, not called off, was told nothing so far, or of an
/// error, and waits for a time or a message at this node. That is its own one, one at its boundary, or one to which a flow
/// leads from it, where it is at an event gateway. The cell, its model and the node are found as in `fits`; at an
/// event gateway it goes through the flows into the node. Where a cell is terminating or ended, it goes up the scopes
/// too.
pub fn waits_at(game: &Game, cell: Key, node: &str) -> bool
    ensures { result ≡ is_awaited game.now (record { cell = cell; node = node.now }) }
{
    match game.cell(cell) {
        Some(cell) => waits_for(game, cell, node),
        None => false,
    }
}

// Whether this cell does.
fn waits_for(game: &Game, cell: &Cell, node: &str) -> bool
    ensures { result ≡ awaits_event game.now (record { cell = cell.now.key; node = node.now }) cell.now }
{
    may_be_told(game, cell)
        && (awaits(game, cell, Catch::Time, node) || awaits(game, cell, Catch::Message, node))
}

/// Whether a catch may open at a node for a cell: the cell is active, and waits for a time or a message at this node.
/// It costs what `waits_at` does, but never goes up the scopes.
pub fn may_open(game: &Game, cell: Key, catch: Catch, node: &str) -> bool
    ensures { result ≡ may_open_at catch cell node.now game.now }
{
    match game.cell(cell) {
        Some(cell) => opens_at(game, cell, catch, node),
        None => false,
    }
}

// Whether one may for this cell.
fn opens_at(game: &Game, cell: &Cell, catch: Catch, node: &str) -> bool
    ensures { result ≡ opens_at catch node.now game.now cell.now }
{
    cell.phase == Phase::Active && awaits(game, cell, catch, node)
}

/// Whether the event of a node interrupts a cell, if it comes about there: the cell isn't told of it and is no run of a
/// body, and it is a boundary event that interrupts, at the node of the cell. The cell, its model and the node are found
/// as in `fits`.
pub fn is_interrupting(game: &Game, cell: Key, node: &str) -> bool
    ensures { result ≡ is_interrupting cell node.now game.now }
{
    match game.cell(cell) {
        Some(cell) => ends_cell(game, cell, node),
        None => false,
    }
}

// Whether it interrupts this cell.
fn ends_cell(game: &Game, cell: &Cell, node: &str) -> bool
    ensures { result ≡ ends_cell game.now (record { cell = cell.now.key; node = node.now }) cell.now }
{
    isnt_told(game, cell, node) && (!is_inner(cell) && has_interrupting(game, cell, node))
}

// Whether the event of a node is a cell's own one, for which it waits itself.
fn is_own_event(game: &Game, cell: &Cell, node: &str) -> bool
    ensures { result ≡ option_map_or (λ n. waits_itself cell.now n && bytes_eq cell.now.node node.now) (node_of game.now cell.now) false }
{
    if is_root(cell) {
        return false;
    }
    match game.model(cell.definition) {
        Some(model) => waits_itself_at(model, cell) && cell.node.as_str() == node,
        None => false,
    }
}

// Whether a cell isn't told of the event of a node: it is of its own one, and at an event gateway of each.
fn isnt_told(game: &Game, cell: &Cell, node: &str) -> bool
    ensures { result ≡ is_none (mark_by game.now (record { cell = cell.now.key; node = node.now }) cell.now) }
{
    !is_own_event(game, cell, node) && !is_gateway_cell(game, cell)
}

// Whether the node with an id is a boundary event that interrupts, at the node of a cell.
fn has_interrupting(game: &Game, cell: &Cell, id: &str) -> bool
    ensures { result ≡ option_map_or (λ m. option_map_or (λ n. n.cancel && is_boundary_of cell.now.node n) (node_with m id.now) false) (model_under game.now cell.now.definition) false }
{
    match game.model(cell.definition) {
        Some(model) => interrupts_at(model, cell.node.as_str(), id),
        None => false,
    }
}

// Whether a cell may be told of an event, if it waits for one.
fn may_be_told(game: &Game, cell: &Cell) -> bool
    ensures { result ≡ may_be_told game.now cell.now }
{
    cell.phase == Phase::Active
        && !game.is_doomed(cell)
        && (is_unset(&cell.mark) || error_of(&cell.mark).is_some())
}

// Whether a cell is at an event gateway; a root is at none.
fn is_gateway_cell(game: &Game, cell: &Cell) -> bool
    ensures { result ≡ is_gateway_cell game.now cell.now }
{
    if is_root(cell) {
        return false;
    }
    match game.model(cell.definition) {
        Some(model) => chooses_by_event(model, cell.node.as_str()),
        None => false,
    }
}

/// Whether an event may come about: a cell waits for it, or it catches an error.
pub fn fits_trigger(game: &Game, t: &Triggered) -> bool
    ensures { result ≡ fits_trigger game.now t.now }
{
    waits_at(game, t.cell, t.node.as_str()) || comes_about(game, t)
}

/// Plays that an event comes about that a cell waits for: the cell is told of its own one, and at an event gateway of
/// the node; else a token stands before that.
pub fn trigger(game: &mut Game, alloc: Global, t: Triggered) -> Result<(), GameFault>
    ensures played { OnOk result (play_trigger game.old t ≡ Some game.new) }
    ensures illegal { IsErrOf result GameFault.Illegal → play_trigger game.old t ≡ None }
    ensures kept { IsErrOf result GameFault.Illegal → game.new ≡ game.old }
{
    let Some(cell) = game.cell(t.cell) else {
        return Err(GameFault::Illegal);
    };
    if is_own_event(game, cell, t.node.as_str()) {
        return game.put_mark(t.cell, Mark::Done);
    }
    if is_gateway_cell(game, cell) {
        return game.put_mark(t.cell, Mark::Chosen(t.node));
    }
    let scope = cell.scope;
    let spot = Spot::BeforeNode(t.node);
    game.add_token(alloc, Token { scope, spot })?;
    Ok(())
}

// Whether in a model the node with an id is a boundary event that interrupts, at this node.
fn interrupts_at(model: &Graph, node: &str, id: &str) -> bool
    ensures { result ≡ option_map_or (λ n. n.cancel && is_boundary_of node.now n) (node_with model.now id.now) false }
{
    match model.node_with(id) {
        Some(event) => event.cancel && is_boundary_of(node, event),
        None => false,
    }
}
