// Faults of flows and gateways: tests, and what finds the id of the first offender.
ghost use Rattle.std.specs.Prelude.{◌≡◌, ◌==◌, ℕ, List, nat_lt, ◌&&◌, ◌||◌, not, false, is_none, IfOk};
ghost use Rattle.std.specs.Option.{option_copied, option_eq, option_map_or};
ghost use Rattle.std.specs.Str.{bytes_eq};
ghost use Rattle.zb_check.specs.Notes.{count_in};
ghost use Rattle.zb_faults.specs.Elements.{node_with, flow_with, incoming, is_at, is_catch, is_end_kind};
ghost use Rattle.zb_faults.specs.Faults.{parent_at, takes_no_flow, is_alternative, bad_event_gateway};
ghost use Rattle.zb_faults.specs.Faults.{has_bad_default, has_bad_condition, bad_condition, strays, lacks_alternatives};

use crate::counting::{Naming, count_named};
use crate::finding::{FlowTest, NodeTest, first_flow, first_node};
use crate::naming::is_empty;
use crate::notes::Notes;
use crate::parts::Parts;
use std::alloc::{AllocError, Global};
use zb_base::Text;
use zb_faults::{
    is_boundary, is_catch, is_end_kind, is_event_gateway, is_exclusive_gateway, is_start,
};
use zb_process::{Flow, Node, NodeKind};

/// Whether an end of a flow is no node.
pub fn dangles(parts: &Parts<'_>, flow: &Flow) -> bool
    ensures { result ≡ (is_none (node_with parts.now flow.now.from) || is_none (node_with parts.now flow.now.to)) }
{
    parts.node(&flow.from).is_none() || parts.node(&flow.to).is_none()
}

/// Whether the ends of a flow have different parents.
pub fn crosses(parts: &Parts<'_>, flow: &Flow) -> bool
    ensures { result ≡ not (option_eq bytes_eq (parent_at parts.now flow.now.from) (parent_at parts.now flow.now.to)) }
{
    match (parts.node(&flow.from), parts.node(&flow.to)) {
        (Some(from), Some(to)) => from.parent.as_str() != to.parent.as_str(),
        (None, None) => false,
        _ => true,
    }
}

/// Whether a flow leads into a start or boundary event, or out of an end event.
pub fn leads_astray(parts: &Parts<'_>, flow: &Flow) -> bool
    ensures { result ≡ (is_at parts.now flow.now.to takes_no_flow || is_at parts.now flow.now.from is_end_kind) }
{
    takes_no_flow_at(parts, &flow.to) || is_end_at(parts, &flow.from)
}

// Whether no flow may lead to the node with this id.
fn takes_no_flow_at(parts: &Parts<'_>, id: &Text) -> bool
    ensures { result ≡ is_at parts.now id.now takes_no_flow }
{
    match parts.node(id) {
        Some(node) => takes_no_flow(node.kind),
        None => false,
    }
}

// Whether the node with this id is an end event.
fn is_end_at(parts: &Parts<'_>, id: &Text) -> bool
    ensures { result ≡ is_at parts.now id.now is_end_kind }
{
    match parts.node(id) {
        Some(node) => is_end_kind(node.kind),
        None => false,
    }
}

// Whether no flow may lead to such a node.
fn takes_no_flow(kind: NodeKind) -> bool
    ensures { result ≡ takes_no_flow kind }
{
    is_start(kind) || is_boundary(kind)
}

/// Whether a flow has to lead to a node, and none does.
pub fn lacks_incoming(parts: &Parts<'_>, node: &Node) -> bool
    ensures { result ≡ (not (takes_no_flow node.now.kind || node.now.handler)
        && (incoming parts.now node.now.id == 0)) }
{
    !(takes_no_flow(node.kind) || node.handler) && parts.incoming(&node.id) == 0
}

/// The first exclusive gateway with a bad default, or else the first flow with a bad condition.
pub fn bad_condition<'a>(parts: &Parts<'a>) -> Option<&'a Text>
    ensures { option_copied result ≡ bad_condition parts.now }
{
    if let Some(id) = first_node(parts, NodeTest::HasBadDefault) {
        return Some(id);
    }
    first_flow(parts, FlowTest::IsMisplaced)
}

/// Whether this is an exclusive gateway whose default is no flow out of it, or has a condition.
pub fn has_bad_default(parts: &Parts<'_>, node: &Node) -> bool
    ensures { result ≡ has_bad_default parts.now node.now }
{
    is_exclusive_gateway(node.kind) && !is_empty(&node.otherwise) && !leaves_by_default(parts, node)
}

// Whether the default of a gateway is a flow out of it, and has no condition.
fn leaves_by_default(parts: &Parts<'_>, node: &Node) -> bool
    ensures { result ≡ option_map_or (λ f. bytes_eq f.from node.now.id && is_none f.condition)
        (flow_with parts.now node.now.otherwise) false }
{
    match parts.flow(&node.otherwise) {
        Some(flow) => flow.from.as_str() == node.id.as_str() && flow.condition.is_none(),
        None => false,
    }
}

/// Whether a flow has no condition where it needs one, or one where there may be none.
pub fn is_misplaced(parts: &Parts<'_>, flow: &Flow) -> bool
    ensures { result ≡ option_map_or (has_bad_condition parts.now flow.now) (node_with parts.now flow.now.from) false }
{
    match parts.node(&flow.from) {
        Some(node) => has_bad_condition(parts, flow, node),
        None => false,
    }
}

// Whether a flow out of this node has no condition where it needs one, or one where there may be none.
fn has_bad_condition(parts: &Parts<'_>, flow: &Flow, node: &Node) -> bool
    ensures { result ≡ has_bad_condition parts.now flow.now node.now }
{
    if is_exclusive_gateway(node.kind) {
        flow.condition.is_none()
            && node.otherwise.as_str() != flow.id.as_str()
            && parts.outgoing(&node.id) > 1
    } else {
        flow.condition.is_some()
    }
}

// The node that a flow leaves, where it leads to no catch event of its own.
#[derive(Drop)]
struct StrayOrigin<'p, 'a> {
    parts: &'p Parts<'a>,
}

impl<'p, 'a> Naming<Flow> for StrayOrigin<'p, 'a> {
    ghost use Rattle.std.specs.Prelude.{not};
    ghost use Rattle.zb_faults.specs.Faults.{is_alternative};

    ghost names = { λ s f. not (is_alternative s.parts.now f) };

    ghost named = { λ _ f. f.from };

    fn names(&self, flow: &Flow) -> bool {
        !is_alternative(self.parts, flow)
    }

    fn named<'b>(&self, flow: &'b Flow) -> &'b Text {
        &flow.from
    }
}

// Whether a flow leads to a catch event to which no other does.
fn is_alternative(parts: &Parts<'_>, flow: &Flow) -> bool
    ensures { result ≡ is_alternative parts.now flow.now }
{
    is_catch_at(parts, &flow.to) && parts.incoming(&flow.to) == 1
}

// Whether the node with this id is a catch event.
fn is_catch_at(parts: &Parts<'_>, id: &Text) -> bool
    ensures { result ≡ is_at parts.now id.now is_catch }
{
    match parts.node(id) {
        Some(node) => is_catch(node.kind),
        None => false,
    }
}

/// The first event gateway with fewer than two flows out of it, or with one that leads to no catch event of its
/// own.
pub fn bad_event_gateway<'a>(
    alloc: Global,
    parts: &Parts<'a>,
) -> Result<Option<&'a Text>, AllocError>
    ensures { IfOk result (λ found. option_copied found ≡ bad_event_gateway parts.now) }
{
    let stray_flows = count_named(alloc, parts.flows(), &StrayOrigin { parts })?;
    Ok(first_lacking(parts, &stray_flows))
}

// The first event gateway that lacks alternatives, where so many flows out of each node lead to none.
fn first_lacking<'a>(parts: &Parts<'a>, stray_flows: &Notes<'_, usize>) -> Option<&'a Text>
    requires { (id : List ℕ) → nat_lt 0 (count_in stray_flows.now id) ≡ strays parts.now id }
    ensures { option_copied result ≡ bad_event_gateway parts.now }
{
    let nodes = parts.nodes();
    for node in nodes {
        if lacks_alternatives(parts, stray_flows, node) {
            return Some(&node.id);
        }
    }
    None
}

// Whether this is an event gateway with fewer than two flows, or with one that leads to no alternative.
fn lacks_alternatives(parts: &Parts<'_>, stray_flows: &Notes<'_, usize>, node: &Node) -> bool
    requires { (id : List ℕ) → nat_lt 0 (count_in stray_flows.now id) ≡ strays parts.now id }
    ensures { result ≡ lacks_alternatives parts.now node.now }
{
    is_event_gateway(node.kind) && (parts.outgoing(&node.id) < 2 || stray_flows.count(&node.id) > 0)
}
