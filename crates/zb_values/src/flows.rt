// The flows of a model.
ghost use Rattle.std.specs.Prelude.{◌≡◌, List, IfOk, Some, filter, map, slice_get};
ghost use Rattle.std.specs.List.{find};
ghost use Rattle.std.specs.Option.{option_copied};
ghost use Rattle.std.specs.Str.{bytes_eq};
ghost use Rattle.zb_process.specs.declared.model.Flow.{Flow};
ghost use Rattle.zb_tokens.specs.Board.{flows_in};
ghost use Rattle.zb_tokens.specs.Choice.{is_default};
ghost use Rattle.zb_tokens.specs.MoveLeave.{are_among, flows_on, leads_to_chosen, may_take};
ghost use Rattle.zb_values.specs.Exits.{left_after};

use std::alloc::{AllocError, Global};
use zb_base::{List, Text, TryCopy};
use zb_board::chooses_by_event;
use zb_graph::Graph;
use zb_process::{Flow, Node};
use zb_tokens::{Cell, Mark};

/// The ids of the flows that may be taken out of the node of a cell, in the order of the model. It goes through the flows
/// out of it.
pub fn flows_on(alloc: Global, model: &Graph, cell: &Cell) -> Result<List<Text>, AllocError>
    ensures { IfOk result (λ ids. ids ≡ flows_on model.now cell.now) }
{
    let node = cell.node.as_str();
    let at_event_gateway = chooses_by_event(model, node);
    let mut ids = List::empty(alloc);
    for number in model.outs_of(node) {
        let flow = model.flow(*number);
        if may_take(at_event_gateway, cell, flow) {
            ids.push(flow.id.copy(alloc)?)?;
        }
    }
    Ok(ids)
}

/// The ids of the flows into a node, in the order of the model. It goes through these.
pub fn flows_in(alloc: Global, model: &Graph, node: &str) -> Result<List<Text>, AllocError>
    ensures { IfOk result (λ ids. ids ≡ flows_in model.now node.now) }
{
    ids_of(alloc, model, model.ins_of(node))
}

// The ids of the flows with these numbers.
fn ids_of(alloc: Global, model: &Graph, numbers: &[u32]) -> Result<List<Text>, AllocError>
    requires { (flows : List Flow) × (map (slice_get model.now.flows) numbers.now ≡ map Some flows) }
    ensures { (flows : List Flow) → map (slice_get model.now.flows) numbers.now ≡ map Some flows
        → IfOk result (λ ids. ids ≡ map (λ f. f.id) flows) }
{
    let mut ids = List::empty(alloc);
    for number in numbers {
        ids.push(model.flow(*number).id.copy(alloc)?)?;
    }
    Ok(ids)
}

/// Whether these are ids of flows that may be taken out of the node of a cell, in the order of the model. It goes through
/// the flows out of it.
pub fn are_among_flows(ids: &[Text], model: &Graph, cell: &Cell) -> bool
    ensures { result ≡ are_among ids.now (flows_on model.now cell.now) }
{
    let node = cell.node.as_str();
    let at_event_gateway = chooses_by_event(model, node);
    let mut rest = ids;
    for number in model.outs_of(node) {
        let flow = model.flow(*number);
        if may_take(at_event_gateway, cell, flow) {
            rest = left_after(rest, flow.id.as_str());
        }
    }
    rest.is_empty()
}

// Whether a flow out of the node of a cell may be taken: at an event gateway the one to the node whose event has come, at
// any other node each.
fn may_take(at_event_gateway: bool, cell: &Cell, flow: &Flow) -> bool
    ensures { result ≡ may_take at_event_gateway cell.now flow.now }
{
    !at_event_gateway || leads_to_chosen(&cell.mark, flow)
}

// Whether a flow leads to the node at which the event of an event gateway has come.
fn leads_to_chosen(mark: &Mark, flow: &Flow) -> bool
    ensures { result ≡ leads_to_chosen mark.now flow.now }
{
    match mark {
        Mark::Chosen(node) => flow.to.as_str() == node.as_str(),
        Mark::Unset | Mark::Done | Mark::Thrown(_) => false,
    }
}

/// The first flow out of a node that is its default. It goes through the flows out of it.
pub fn default_of<'a>(model: &'a Graph, node: &Node, id: &str) -> Option<&'a Flow>
    ensures { option_copied result ≡ find (is_default node.now) (filter (λ f. bytes_eq f.from id.now) model.now.flows) }
{
    for number in model.outs_of(id) {
        let flow = model.flow(*number);
        if is_default(node, flow) {
            return Some(flow);
        }
    }
    None
}

/// Whether a flow is the default of its gateway.
#[tactic(auto, using(zb_board::proofs::AskingLemmas::compared))]
pub fn is_default(node: &Node, flow: &Flow) -> bool
    ensures { result ≡ is_default node.now flow.now }
{
    let otherwise = node.otherwise.as_str();
    !otherwise.is_empty() && flow.id.as_str() == otherwise
}

// Which ids are still to be found once this one was met.
fn left_after<'a>(ids: &'a [Text], id: &str) -> &'a [Text]
    ensures { result.now ≡ left_after ids.now id.now }
{
    match ids {
        [first, rest @ ..] => { if first.as_str() == id { rest } else { ids } }
        [] => ids,
    }
}
