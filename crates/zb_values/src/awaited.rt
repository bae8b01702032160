// The nodes for whose events a cell waits: its own one, those behind an event gateway, and those at the boundary of an
// activity.
ghost use Rattle.std.specs.Prelude.{◌≡◌, ◌≤◌, ◌<◌, ◌^◌, ◌++◌, ◌∷◌, [], false, Some, IfOk, OnOk, filter, length, map, if◌then◌else◌, slice_get};
ghost use Rattle.std.specs.Option.{option_map_or};
ghost use Rattle.zb_process.specs.declared.model.Node.{Node};
ghost use Rattle.zb_tokens.specs.Board.{node_with};
ghost use Rattle.zb_tokens.specs.Catches.{awaited, awaits, is_awaited_at, is_caught_at, is_message_event, is_receive_task, leads_from, time_form, waits_beside, waits_itself, waits_once};

use std::alloc::{AllocError, Global};
use zb_base::List;
use zb_board::{Game, is_body, is_inner, is_root};
use zb_duration::TimeForm;
use zb_faults::{is_boundary, is_boundary_of, is_catch, is_event_gateway};
use zb_graph::Graph;
use zb_process::{Node, NodeKind};
use zb_tokens::{Catch, Cell};

/// Whether a cell waits, or is about to, for a time or a message at the node with an id. A root waits for none. Its
/// model is found as by `Game::model`; at an event gateway it goes through the flows into the node.
pub fn awaits(game: &Game, cell: &Cell, catch: Catch, id: &str) -> bool
    ensures { result ≡ awaits catch game.now cell.now id.now }
{
    match game.model(cell.definition) {
        Some(model) => !is_root(cell) && awaits_in(model, cell, catch, id),
        None => false,
    }
}

// The same in its model, for a cell that is no root.
fn awaits_in(model: &Graph, cell: &Cell, catch: Catch, id: &str) -> bool
    ensures { result ≡ option_map_or (λ n. is_awaited_at catch model.now cell.now n id.now) (node_with model.now cell.now.node) false }
{
    match model.node_with(cell.node.as_str()) {
        Some(node) => is_awaited_at(model, cell, node, catch, id),
        None => false,
    }
}

// Whether at a node a cell waits for a time or a message at the node with an id.
fn is_awaited_at(model: &Graph, cell: &Cell, node: &Node, catch: Catch, id: &str) -> bool
    ensures { result ≡ is_awaited_at catch model.now cell.now node.now id.now }
{
    match model.node_with(id) {
        Some(other) => {
            (cell.node.as_str() == id && waits_itself(cell, node)
                || waits_beside(model, cell, node, other))
                && is_caught_at(other.kind, catch)
        }
        None => false,
    }
}

// Whether at a node of this kind a time or a message is caught.
fn is_caught_at(kind: NodeKind, catch: Catch) -> bool
    ensures { result ≡ is_caught_at kind catch }
{
    match catch {
        Catch::Time => time_form(kind).is_some(),
        Catch::Message => is_message_event(kind),
    }
}

/// Whether at a node of this kind a message is caught: by a task, by an event in the flow, or at the boundary of an
/// activity.
pub fn is_message_event(kind: NodeKind) -> bool
    ensures { result ≡ is_message_event kind }
{
    matches!(
        kind,
        NodeKind::ReceiveTask | NodeKind::MessageCatchEvent | NodeKind::MessageBoundaryEvent
    )
}

/// Whether one message is all that is waited for at a node.
pub fn waits_once(node: &Node) -> bool
    ensures { result ≡ waits_once node.now }
{
    !is_boundary(node.kind) || node.cancel
}

/// Whether at its node in a model a cell waits for the node's own event. The node is found in constant time, on
/// average.
pub fn waits_itself_at(model: &Graph, cell: &Cell) -> bool
    ensures { result ≡ option_map_or (waits_itself cell.now) (node_with model.now cell.now.node) false }
{
    match model.node_with(cell.node.as_str()) {
        Some(node) => waits_itself(cell, node),
        None => false,
    }
}

// Whether at a node a cell waits for the node's own event; a body leaves that to the cells in it.
fn waits_itself(cell: &Cell, node: &Node) -> bool
    ensures { result ≡ waits_itself cell.now node.now }
{
    !is_body(cell) && (is_receive_task(node.kind) || is_catch(node.kind) && !cell.before)
}

// A task that waits for a message.
fn is_receive_task(kind: NodeKind) -> bool
    ensures { result ≡ is_receive_task kind }
{
    matches!(kind, NodeKind::ReceiveTask)
}

// Whether at a node a cell waits for the event of another one; a run of a body waits for none. At an event gateway it
// goes through the flows into that.
fn waits_beside(model: &Graph, cell: &Cell, at: &Node, other: &Node) -> bool
    ensures { result ≡ waits_beside model.now cell.now at.now other.now }
{
    if is_inner(cell) {
        return false;
    }
    if is_event_gateway(at.kind) {
        leads_from(model, at.id.as_str(), other.id.as_str())
    } else {
        is_boundary_of(at.id.as_str(), other)
    }
}

// Whether a flow leads from one node to another. It goes through the flows into that.
fn leads_from(model: &Graph, origin: &str, target: &str) -> bool
    ensures { result ≡ leads_from model.now origin.now target.now }
{
    for number in model.ins_of(target) {
        if model.flow(*number).from.as_str() == origin {
            return true;
        }
    }
    false
}

/// The numbers of the nodes for whose events a cell waits at the node with a number: its own one first, the others in
/// the order of the model. It takes no memory where there are none.
pub fn awaited(
    alloc: Global,
    model: &Graph,
    cell: &Cell,
    number: u32,
) -> Result<List<u32>, AllocError>
    requires { number < length model.now.nodes }
    ensures { (n : Node) → slice_get model.now.nodes number ≡ Some n
        → IfOk result (λ numbers. map (slice_get model.now.nodes) numbers ≡ map Some (awaited model.now cell.now n)) }
{
    let node = model.node(number);
    let mut numbers = own_number(alloc, cell, node, number)?;
    add_beside(model, cell, node, &mut numbers)?;
    Ok(numbers)
}

// The number of a node, where a cell at it waits for its own event.
fn own_number(alloc: Global, cell: &Cell, node: &Node, number: u32) -> Result<List<u32>, AllocError>
    ensures { IfOk result (λ numbers. numbers ≡ (if waits_itself cell.now node.now then number ∷ [] else [])) }
{
    let mut numbers = List::empty(alloc);
    if !waits_itself(cell, node) {
        return Ok(numbers);
    }
    numbers.push(number)?;
    Ok(numbers)
}

// Adds the numbers of the other nodes for whose events a cell waits at a node, in the order of the model.
fn add_beside(
    model: &Graph,
    cell: &Cell,
    at: &Node,
    numbers: &mut List<u32>,
) -> Result<(), AllocError>
    ensures { OnOk result (map (slice_get model.now.nodes) numbers.new ≡ map (slice_get model.now.nodes) numbers.old ++ map Some (filter (waits_beside model.now cell.now at.now) model.now.nodes)) }
{
    if is_inner(cell) {
        return Ok(());
    }
    if is_event_gateway(at.kind) {
        add_behind(model, at.id.as_str(), numbers)
    } else {
        add_all(model.bounds_of(at.id.as_str()), numbers)
    }
}

// Adds the numbers of the nodes to which a flow leads from the node with an id, in the order of the model. It goes
// through all nodes, and for each through the flows into it.
fn add_behind(model: &Graph, origin: &str, numbers: &mut List<u32>) -> Result<(), AllocError>
    ensures { OnOk result (map (slice_get model.now.nodes) numbers.new ≡ map (slice_get model.now.nodes) numbers.old ++ map Some (filter (λ n. leads_from model.now origin.now n.id) model.now.nodes)) }
{
    for number in 0..model.node_count() {
        if leads_from(model, origin, model.node(number).id.as_str()) {
            numbers.push(number)?;
        }
    }
    Ok(())
}

// Adds these numbers.
fn add_all(more: &[u32], numbers: &mut List<u32>) -> Result<(), AllocError>
    ensures { OnOk result (numbers.new ≡ numbers.old ++ more.now) }
{
    for number in more {
        numbers.push(*number)?;
    }
    Ok(())
}

/// The form of the time at a node with a timer: an event in the flow, or at the boundary of an activity.
pub fn time_form(kind: NodeKind) -> Option<TimeForm>
    ensures { result ≡ time_form kind }
{
    match kind {
        NodeKind::DateCatchEvent | NodeKind::DateBoundaryEvent => Some(TimeForm::Date),
        NodeKind::DurationCatchEvent | NodeKind::DurationBoundaryEvent => Some(TimeForm::Duration),
        _ => None,
    }
}
