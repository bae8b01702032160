// What kinds of nodes stand in a model.
ghost use Rattle.std.specs.Prelude.{◌≡◌, is_some, map, option_map};
ghost use Rattle.zb_faults.specs.Elements.{is_at, is_event_gateway, is_service_task, is_subprocess, is_terminate_end};
ghost use Rattle.std.specs.Option.{option_copied};
ghost use Rattle.zb_tokens.specs.Bodies.{is_sequential, multi_at, role_at};
ghost use Rattle.zb_tokens.specs.Board.{holds_tokens, is_compensation, undoes};
ghost use Rattle.zb_tokens.specs.Handlers.{handler_of, has_handler_at};
ghost use Rattle.zb_tokens.specs.Choice.{gateway_in};
ghost use Rattle.zb_tokens.specs.MoveFinish.{rests_at, waits_for_nothing};

use crate::roles::{is_body, is_root};
use zb_faults::{
    is_activity, is_catch, is_event_gateway, is_exclusive_gateway, is_service_task, is_subprocess,
    is_terminate_end,
};
use zb_graph::Graph;
use zb_instance_records::Role;
use zb_process::{Multi, NodeKind};
use zb_tokens::Cell;

/// Whether a cell is a scope, in which tokens move: no body, but a root, or one at a subprocess.
pub fn holds_tokens(model: &Graph, cell: &Cell) -> bool
    ensures { result ≡ holds_tokens model.now cell.now }
{
    !is_body(cell) && (is_root(cell) || is_subprocess_at(model, cell.node.as_str()))
}

// Whether the node with an id is a subprocess.
fn is_subprocess_at(model: &Graph, id: &str) -> bool
    ensures { result ≡ is_at model.now id.now is_subprocess }
{
    match model.node_with(id) {
        Some(node) => is_subprocess(node.kind),
        None => false,
    }
}

/// Whether a cell is at a compensation event, and runs handlers there.
pub fn undoes(model: &Graph, cell: &Cell) -> bool
    ensures { result ≡ undoes model.now cell.now }
{
    !(is_root(cell) || is_body(cell)) && is_compensation_at(model, cell.node.as_str())
}

// Whether the node with an id is a compensation event, in the flow or at its end.
fn is_compensation_at(model: &Graph, id: &str) -> bool
    ensures { result ≡ is_at model.now id.now is_compensation }
{
    match model.node_with(id) {
        Some(node) => is_compensation(node.kind),
        None => false,
    }
}

// Whether a node of this kind is a compensation event, in the flow or at its end.
fn is_compensation(kind: NodeKind) -> bool
    ensures { result ≡ is_compensation kind }
{
    matches!(
        kind,
        NodeKind::CompensationEndEvent | NodeKind::CompensationThrowEvent
    )
}

/// How an activity has several instances, by the id of its node, if it has.
pub fn multi_at<'a>(model: &'a Graph, id: &str) -> Option<&'a Multi>
    ensures { option_copied result ≡ multi_at model.now id.now }
{
    let node = model.node_with(id)?;
    if is_activity(node.kind) {
        node.multi.as_ref()
    } else {
        None
    }
}

/// The role of a cell that a token begins at a node.
pub fn role_at(model: &Graph, id: &str) -> Role
    ensures { result ≡ role_at model.now id.now }
{
    match multi_at(model, id) {
        Some(_multi) => Role::Body,
        None => Role::Plain,
    }
}

/// Whether the runs of a body come one after the other.
pub fn is_sequential(model: &Graph, cell: &Cell) -> bool
    ensures { result ≡ is_sequential model.now cell.now }
{
    match multi_at(model, cell.node.as_str()) {
        Some(multi) => multi.sequential,
        None => false,
    }
}

/// Whether the node with an id is an exclusive gateway.
pub fn chooses(model: &Graph, id: &str) -> bool
    ensures { result ≡ is_some (gateway_in model.now id.now) }
{
    match model.node_with(id) {
        Some(node) => is_exclusive_gateway(node.kind),
        None => false,
    }
}

/// Whether the node with an id is a terminate end event.
pub fn terminates_at(model: &Graph, id: &str) -> bool
    ensures { result ≡ is_at model.now id.now is_terminate_end }
{
    match model.node_with(id) {
        Some(node) => is_terminate_end(node.kind),
        None => false,
    }
}

/// Whether the node with an id is a service task.
pub fn is_service_at(model: &Graph, id: &str) -> bool
    ensures { result ≡ is_at model.now id.now is_service_task }
{
    match model.node_with(id) {
        Some(node) => is_service_task(node.kind),
        None => false,
    }
}

/// Whether the node with an id is an event gateway.
pub fn chooses_by_event(model: &Graph, id: &str) -> bool
    ensures { result ≡ is_at model.now id.now is_event_gateway }
{
    match model.node_with(id) {
        Some(node) => is_event_gateway(node.kind),
        None => false,
    }
}

/// Whether the node of a cell is there, and the cell waits for nothing at it.
pub fn goes_on(model: &Graph, cell: &Cell) -> bool
    ensures { result ≡ is_at model.now cell.now.node (rests_at cell.now) }
{
    match model.node_with(cell.node.as_str()) {
        Some(node) => rests_at(cell, node.kind),
        None => false,
    }
}

// Whether a cell waits for nothing at a node of this kind: none does, or its event has come at an event gateway in front
// of it.
fn rests_at(cell: &Cell, kind: NodeKind) -> bool
    ensures { result ≡ rests_at cell.now kind }
{
    waits_for_nothing(kind) || is_catch(kind) && cell.before
}

// Whether a node of this kind waits for nothing once a token has entered it.
fn waits_for_nothing(kind: NodeKind) -> bool
    ensures { result ≡ waits_for_nothing kind }
{
    match kind {
        NodeKind::StartEvent
        | NodeKind::MessageStartEvent
        | NodeKind::EndEvent
        | NodeKind::TerminateEndEvent
        | NodeKind::ExclusiveGateway
        | NodeKind::ParallelGateway
        | NodeKind::ThrowEvent
        | NodeKind::DateBoundaryEvent
        | NodeKind::DurationBoundaryEvent
        | NodeKind::MessageBoundaryEvent
        | NodeKind::ErrorBoundaryEvent
        | NodeKind::CompensationBoundaryEvent => true,
        _ => false,
    }
}
