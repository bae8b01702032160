// Faults of boundary events and handlers: each finds the id of its first offender.
ghost use Rattle.std.specs.Prelude.{◌≡◌, ℕ, List, [], ◌||◌, ◌&&◌, not, is_some, false, option_map, IfOk, OnOk};
ghost use Rattle.std.specs.Option.{option_copied, option_map_or};
ghost use Rattle.std.specs.Str.{bytes_eq};
ghost use Rattle.zb_faults.specs.Elements.{node_with, is_boundary, is_compensation_boundary, is_error_boundary};
ghost use Rattle.zb_faults.specs.Faults.{find_behind, is_attached, bad_compensation, bad_error};
ghost use Rattle.zb_faults.specs.Faults.{catches_badly, has_flows, is_forgotten, is_handler_in};
ghost use Rattle.zb_check.specs.Compensation.{is_bad_by};
ghost use Rattle.zb_check.specs.Notes.{noted};
ghost use Rattle.zb_check.specs.Pairs.{is_noted};

use crate::notes::{Notes, note_where};
use crate::pairs::Pairs;
use crate::parts::Parts;
use std::alloc::{AllocError, Global};
use zb_base::Text;
use zb_faults::{
    is_activity, is_boundary, is_compensation_boundary, is_error_boundary, is_service_task,
};
use zb_process::Node;

/// Whether this is a boundary event that isn't attached to an activity of its scope.
pub fn is_detached(parts: &Parts<'_>, node: &Node) -> bool
    ensures { result ≡ (is_boundary node.now.kind && not (is_attached parts.now node.now)) }
{
    is_boundary(node.kind) && !is_attached(parts, node)
}

// Whether a node is attached to an activity of its scope.
fn is_attached(parts: &Parts<'_>, node: &Node) -> bool
    ensures { result ≡ is_attached parts.now node.now }
{
    match parts.node(&node.attached) {
        Some(host) => is_activity(host.kind) && host.parent.as_str() == node.parent.as_str(),
        None => false,
    }
}

/// The first compensation event that is bad, or handler that no compensation event names.
pub fn bad_compensation<'a>(
    alloc: Global,
    parts: &Parts<'a>,
) -> Result<Option<&'a Text>, AllocError>
    ensures { IfOk result (λ found. option_copied found ≡ bad_compensation parts.now) }
{
    let mut handlers = Notes::empty(alloc);
    let mut activities = Notes::empty(alloc);
    let nodes = parts.nodes();
    for node in nodes {
        if is_compensated_badly(parts, &handlers, &activities, node) {
            return Ok(Some(&node.id));
        }
        note_compensation(&mut handlers, &mut activities, node)?;
    }
    Ok(None)
}

// Whether this is a handler that no compensation event names, or such an event that names none, has flows, or has
// one of these handlers or activities.
fn is_compensated_badly(
    parts: &Parts<'_>,
    handlers: &Notes<'_, ()>,
    activities: &Notes<'_, ()>,
    node: &Node,
) -> bool
    ensures { result ≡ is_bad_by parts.now node.now (is_some (noted handlers.now node.now.name))
        (is_some (noted activities.now node.now.attached)) }
{
    let is_known = handlers.get(&node.name).is_some() || activities.get(&node.attached).is_some();
    let is_bad = !names_handler(parts, node) || has_flows(parts, node) || is_known;
    (is_compensation_boundary(node.kind) && is_bad) || is_forgotten(parts, node)
}

// Whether a compensation event names a handler in its scope.
fn names_handler(parts: &Parts<'_>, node: &Node) -> bool
    ensures { result
        ≡ option_map_or (is_handler_in parts.now node.now.parent) (node_with parts.now node.now.name) false }
{
    match parts.node(&node.name) {
        Some(handler) => is_handler_in(parts, &node.parent, handler),
        None => false,
    }
}

// Whether a node may undo an activity of a scope.
fn is_handler_in(parts: &Parts<'_>, scope: &Text, node: &Node) -> bool
    ensures { result ≡ is_handler_in parts.now scope.now node.now }
{
    is_service_task(node.kind)
        && node.handler
        && node.parent.as_str() == scope.as_str()
        && node.multi.is_none()
        && !has_flows(parts, node)
        && !parts.has_boundary(&node.id)
}

// Whether a flow leads to a node or leaves it.
fn has_flows(parts: &Parts<'_>, node: &Node) -> bool
    ensures { result ≡ has_flows parts.now node.now }
{
    parts.incoming(&node.id) > 0 || parts.outgoing(&node.id) > 0
}

// Whether this is a handler that no compensation event names.
fn is_forgotten(parts: &Parts<'_>, node: &Node) -> bool
    ensures { result ≡ is_forgotten parts.now node.now }
{
    node.handler && !parts.names_handler(&node.id)
}

// Notes the handler and the activity of a compensation event.
fn note_compensation<'a>(
    handlers: &mut Notes<'a, ()>,
    activities: &mut Notes<'a, ()>,
    node: &'a Node,
) -> Result<(), AllocError>
    ensures handlers { OnOk result ((q : List ℕ) → is_some (noted handlers.new q)
        ≡ ((is_compensation_boundary node.now.kind && bytes_eq node.now.name q) || is_some (noted handlers.old q))) }
    ensures activities { OnOk result ((q : List ℕ) → is_some (noted activities.new q)
        ≡ ((is_compensation_boundary node.now.kind && bytes_eq node.now.attached q)
        || is_some (noted activities.old q))) }
{
    note_where(handlers, &node.name, is_compensation_boundary(node.kind))?;
    note_where(
        activities,
        &node.attached,
        is_compensation_boundary(node.kind),
    )
}

/// The first error event that doesn't end its activity, or has the activity and the code of one in front of it.
pub fn bad_error<'a>(alloc: Global, nodes: &'a [Node]) -> Result<Option<&'a Text>, AllocError>
    ensures { IfOk result (λ found. option_copied found
        ≡ option_map (λ n. n.id) (find_behind catches_badly [] nodes.now)) }
{
    let mut caught = Pairs::empty(alloc);
    for node in nodes {
        if catches_badly(&caught, node) {
            return Ok(Some(&node.id));
        }
        note_error(alloc, &mut caught, node)?;
    }
    Ok(None)
}

// Whether this is an error event that doesn't end its activity, or catches one of these codes of these activities.
fn catches_badly(caught: &Pairs<'_>, node: &Node) -> bool
    ensures { result ≡ (is_error_boundary node.now.kind
        && (not node.now.cancel || is_noted caught.now node.now.attached node.now.name)) }
{
    is_error_boundary(node.kind) && (!node.cancel || caught.has(&node.attached, &node.name))
}

// Notes the activity of an error event with its code.
fn note_error<'a>(alloc: Global, caught: &mut Pairs<'a>, node: &'a Node) -> Result<(), AllocError>
    ensures { OnOk result ((p q : List ℕ) → is_noted caught.new p q
        ≡ ((is_error_boundary node.now.kind && (bytes_eq node.now.attached p && bytes_eq node.now.name q))
        || is_noted caught.old p q)) }
{
    if is_error_boundary(node.kind) {
        return caught.put(alloc, &node.attached, &node.name);
    }
    Ok(())
}
