// By which name what stands in a list is found.
ghost use Rattle.std.specs.Prelude.{◌≡◌, ◌&&◌, ℕ, List, Bool, false};
ghost use Rattle.std.specs.Option.{option_map_or};
ghost use Rattle.std.specs.Str.{bytes_eq};
ghost use Rattle.zb_faults.specs.Elements.{is_boundary_of, is_start};

use zb_faults::{is_boundary, is_start};
use zb_process::{Flow, Node};

/// A name that the items of a list may have.
pub trait Label<T> {
    ghost has_name: { T → List ℕ → Bool };

    fn name(item: &T) -> Option<&str>
        ensures { (name : List ℕ) → option_map_or (λ n. bytes_eq n.now name) result false ≡ has_name item.now name };
}

/// A node's id.
pub struct NodeId;

impl Label<Node> for NodeId {
    ghost has_name = { λ n name. bytes_eq n.id name };

    fn name(node: &Node) -> Option<&str> {
        Some(node.id.as_str())
    }
}

/// The activity at whose boundary an event stands.
pub struct Host;

impl Label<Node> for Host {
    ghost has_name = { λ n name. is_boundary_of name n };

    fn name(node: &Node) -> Option<&str> {
        if is_boundary(node.kind) {
            Some(node.attached.as_str())
        } else {
            None
        }
    }
}

/// The scope that a start event starts.
pub struct Started;

impl Label<Node> for Started {
    ghost has_name = { λ n name. is_start n.kind && bytes_eq n.parent name };

    fn name(node: &Node) -> Option<&str> {
        if is_start(node.kind) {
            Some(node.parent.as_str())
        } else {
            None
        }
    }
}

/// A flow's id.
pub struct FlowId;

impl Label<Flow> for FlowId {
    ghost has_name = { λ f name. bytes_eq f.id name };

    fn name(flow: &Flow) -> Option<&str> {
        Some(flow.id.as_str())
    }
}

/// The node that a flow comes from.
pub struct Origin;

impl Label<Flow> for Origin {
    ghost has_name = { λ f name. bytes_eq f.from name };

    fn name(flow: &Flow) -> Option<&str> {
        Some(flow.from.as_str())
    }
}

/// The node that a flow leads to.
pub struct Target;

impl Label<Flow> for Target {
    ghost has_name = { λ f name. bytes_eq f.to name };

    fn name(flow: &Flow) -> Option<&str> {
        Some(flow.to.as_str())
    }
}
