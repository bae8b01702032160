// The first flow or node that a test finds.
ghost use Rattle.std.specs.Prelude.{◌≡◌, option_map};
ghost use Rattle.std.specs.List.{find};
ghost use Rattle.std.specs.Option.{option_copied};
ghost use Rattle.zb_check.specs.Finding.{is_found_flow, is_found_node};

use crate::boundaries::is_detached;
use crate::flows::{crosses, dangles, has_bad_default, is_misplaced, lacks_incoming, leads_astray};
use crate::parts::Parts;
use crate::scopes::starts_badly;
use zb_base::Text;
use zb_process::{Flow, Node};

/// A test of flows.
#[derive(Clone, Copy)]
pub enum FlowTest {
    /// An end of it is no node.
    Dangles,
    /// Its ends have different parents.
    Crosses,
    /// It leads into a start or boundary event, or out of an end event.
    LeadsAstray,
    /// It has no condition where it needs one, or one where there may be none.
    IsMisplaced,
}

/// A test of nodes.
#[derive(Clone, Copy)]
pub enum NodeTest {
    /// A flow has to lead to it, and none does.
    LacksIncoming,
    /// It is a boundary event that isn't attached to an activity of its scope.
    IsDetached,
    /// It is an exclusive gateway whose default is no flow out of it, or has a condition.
    HasBadDefault,
    /// It is a subprocess without exactly one start event, or with one that a message triggers.
    StartsBadly,
}

/// The id of the first flow that a test finds.
pub fn first_flow<'a>(parts: &Parts<'a>, test: FlowTest) -> Option<&'a Text>
    ensures { option_copied result
        ≡ option_map (λ f. f.id) (find (is_found_flow test parts.now) parts.now.flows) }
{
    let flows = parts.flows();
    for flow in flows {
        if is_found_flow(parts, test, flow) {
            return Some(&flow.id);
        }
    }
    None
}

// Whether a test finds a flow.
fn is_found_flow(parts: &Parts<'_>, test: FlowTest, flow: &Flow) -> bool
    ensures { result ≡ is_found_flow test parts.now flow.now }
{
    match test {
        FlowTest::Dangles => dangles(parts, flow),
        FlowTest::Crosses => crosses(parts, flow),
        FlowTest::LeadsAstray => leads_astray(parts, flow),
        FlowTest::IsMisplaced => is_misplaced(parts, flow),
    }
}

/// The id of the first node that a test finds.
pub fn first_node<'a>(parts: &Parts<'a>, test: NodeTest) -> Option<&'a Text>
    ensures { option_copied result
        ≡ option_map (λ n. n.id) (find (is_found_node test parts.now) parts.now.nodes) }
{
    let nodes = parts.nodes();
    for node in nodes {
        if is_found_node(parts, test, node) {
            return Some(&node.id);
        }
    }
    None
}

// Whether a test finds a node.
fn is_found_node(parts: &Parts<'_>, test: NodeTest, node: &Node) -> bool
    ensures { result ≡ is_found_node test parts.now node.now }
{
    match test {
        NodeTest::LacksIncoming => lacks_incoming(parts, node),
        NodeTest::IsDetached => is_detached(parts, node),
        NodeTest::HasBadDefault => has_bad_default(parts, node),
        NodeTest::StartsBadly => starts_badly(parts, node),
    }
}
