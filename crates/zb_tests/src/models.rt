// Models for tests.
ghost use Rattle.std.specs.Prelude.{◌≡◌, length};

use std::alloc::Global;
use std::process::Abort;
use zb_model::{Expr, ExprNode, Flow, List, Model, Node, NodeKind, Text};

/// A node: its id and kind, the activity at whose boundary it stands, and what it is named: its job type, or the name of its
/// messages. Those that it waits for have the correlation key in k. An id that ends in a sign lets the activity go on.
pub type Part = (&'static str, NodeKind, &'static str, &'static str);

/// A process: its id, its nodes, and its flows, each with its id, where it comes from and where it goes to.
pub type Shape = (&'static str, &'static [Part], &'static [[&'static str; 3]]);

// This text.
fn text(rt: &impl Abort, alloc: Global, text: &str) -> Text {
    Text::of(alloc, text).expect(rt, "memory")
}

// A node of this kind, and nothing else of it.
fn node(rt: &impl Abort, alloc: Global, id: &str, kind: NodeKind) -> Node {
    Node {
        id: text(rt, alloc, id),
        kind,
        parent: Text::empty(alloc),
        attached: Text::empty(alloc),
        cancel: false,
        otherwise: Text::empty(alloc),
        name: Text::empty(alloc),
        expr: None,
        retries: 0,
        handler: false,
        multi: None,
        inputs: List::empty(alloc),
        outputs: List::empty(alloc),
    }
}

// A node of a shape.
fn part(rt: &impl Abort, alloc: Global, part: &Part) -> Node {
    let (id, kind, attached, name) = *part;
    let mut made = node(rt, alloc, id, kind);
    made.attached = text(rt, alloc, attached);
    made.cancel = kind == NodeKind::MessageBoundaryEvent && !id.ends_with("+");
    made.name = text(rt, alloc, name);
    made.expr = match kind {
        NodeKind::ReceiveTask | NodeKind::MessageCatchEvent | NodeKind::MessageBoundaryEvent => {
            let node = ExprNode::Name(text(rt, alloc, "k"));
            Expr::new(node)
        }
        _ => None,
    };
    made
}

fn flow(rt: &impl Abort, alloc: Global, ends: &[&str; 3]) -> Flow {
    let [id, from, to] = *ends;
    Flow {
        id: text(rt, alloc, id),
        from: text(rt, alloc, from),
        to: text(rt, alloc, to),
        condition: None,
    }
}

/// The process of a shape.
pub fn shaped(rt: &impl Abort, alloc: Global, shape: &Shape) -> Model {
    let (process, parts, ends) = *shape;
    let mut nodes = List::empty(alloc);
    for it in parts {
        nodes.push(part(rt, alloc, it)).expect(rt, "memory");
    }
    let mut flows = List::empty(alloc);
    for it in ends {
        flows.push(flow(rt, alloc, it)).expect(rt, "memory");
    }
    Model {
        process: text(rt, alloc, process),
        tag: Text::empty(alloc),
        nodes,
        flows,
    }
}

/// The process `p`: a start event `s`, flow `f`, and an end event `e`.
pub fn straight(rt: &impl Abort, alloc: Global) -> Model
    ensures nodes { length result.nodes ≡ 2 }
    ensures flows { length result.flows ≡ 1 }
{
    let mut nodes = List::empty(alloc);
    let start = node(rt, alloc, "s", NodeKind::StartEvent);
    nodes.push(start).expect(rt, "memory");
    let end = node(rt, alloc, "e", NodeKind::EndEvent);
    nodes.push(end).expect(rt, "memory");
    let mut flows = List::empty(alloc);
    let flow = Flow {
        id: text(rt, alloc, "f"),
        from: text(rt, alloc, "s"),
        to: text(rt, alloc, "e"),
        condition: None,
    };
    flows.push(flow).expect(rt, "memory");
    Model {
        process: text(rt, alloc, "p"),
        tag: Text::empty(alloc),
        nodes,
        flows,
    }
}
