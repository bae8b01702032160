// Which tokens have come to a node.
ghost use Rattle.std.specs.Prelude.{◌≡◌, true};
ghost use Rattle.zb_tokens.specs.Board.{leads_to};
ghost use Rattle.zb_tokens.specs.Forced.{way_by};
ghost use Rattle.zb_tokens.specs.MoveEnter.{has_come, joins};
ghost use Rattle.zb_places.specs.Places.{comes_in, held_tokens};

use crate::flows::are_on_each;
use crate::standing::stands_coming;
use zb_base::Key;
use zb_faults::is_parallel_gateway;
use zb_graph::Graph;
use zb_groups::Groups;
use zb_tokens::{Spot, Token};

/// Whether in a model the tokens have come that a token needs to enter its node. It costs what `has_come` does.
pub fn comes(model: &Graph, tokens: &Groups<Token>, token: &Token) -> bool
    ensures { result ≡ comes_in model.now (held_tokens tokens.now) token.now }
{
    match &token.spot {
        Spot::BeforeNode(node) => has_come(model, tokens, token.scope, node.as_str(), ""),
        Spot::OnFlow(id) => match model.flow_with(id.as_str()) {
            Some(flow) => {
                let node = flow.to.as_str();
                has_come_by(model, tokens, token.scope, node, id.as_str())
            }
            None => false,
        },
    }
}

// Whether tokens have come for the node at the end of a flow to be entered by it, or by none where flows join there.
fn has_come_by(model: &Graph, tokens: &Groups<Token>, scope: Key, node: &str, flow: &str) -> bool
    requires { leads_to model.now flow.now node.now ≡ true }
    ensures { result ≡ has_come model.now (held_tokens tokens.now) scope node.now (way_by model.now node.now flow.now) }
{
    match model.node_with(node) {
        Some(found) => {
            if is_parallel_gateway(found.kind) {
                return are_on_each(model, scope, node, tokens);
            }
            stands_coming(scope, node, flow, tokens)
        }
        None => false,
    }
}

/// Whether tokens have come for a node to be entered by a flow. It costs what `stands_coming` does; at a gateway where
/// flows join, what `are_on_each` does.
pub fn has_come(model: &Graph, tokens: &Groups<Token>, scope: Key, node: &str, via: &str) -> bool
    ensures { result ≡ has_come model.now (held_tokens tokens.now) scope node.now via.now }
{
    match model.node_with(node) {
        Some(found) => {
            if is_parallel_gateway(found.kind) {
                return via.is_empty() && are_on_each(model, scope, node, tokens);
            }
            (via.is_empty() || leads_to(model, via, node))
                && stands_coming(scope, node, via, tokens)
        }
        None => false,
    }
}

/// The flow by which a token enters a node; none where flows join there.
pub fn way_by<'a>(model: &Graph, node: &str, flow: &'a str) -> &'a str
    ensures { result.now ≡ way_by model.now node.now flow.now }
{
    if joins(model, node) { "" } else { flow }
}

/// Whether flows join at the node with an id.
pub fn joins(model: &Graph, id: &str) -> bool
    ensures { result ≡ joins model.now id.now }
{
    match model.node_with(id) {
        Some(node) => is_parallel_gateway(node.kind),
        None => false,
    }
}

// Whether a flow leads to a node.
fn leads_to(model: &Graph, flow: &str, node: &str) -> bool
    ensures { result ≡ leads_to model.now flow.now node.now }
{
    match model.flow_with(flow) {
        Some(found) => found.to.as_str() == node,
        None => false,
    }
}
