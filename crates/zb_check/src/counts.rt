// How often nodes and flows name each id.
ghost use Rattle.std.specs.Prelude.{IfOk};
ghost use Rattle.zb_check.specs.Counts.{Counted};

use crate::counting::{Naming, count_named};
use crate::notes::Notes;
use std::alloc::{AllocError, Global};
use zb_base::Text;
use zb_faults::{is_boundary, is_compensation_boundary, is_message_start, is_start};
use zb_process::{Flow, Model, Node};

/// How often each id is named.
#[derive(Drop)]
pub struct Counts<'a> {
    /// By flows that lead to it.
    pub incoming: Notes<'a, usize>,
    /// By flows that leave it.
    pub outgoing: Notes<'a, usize>,
    /// By start events that stand in it.
    pub starts: Notes<'a, usize>,
    /// By start events that a message triggers and that stand in it.
    pub message_starts: Notes<'a, usize>,
    /// By boundary events that are attached to it.
    pub boundaries: Notes<'a, usize>,
    /// By compensation events whose handler it is.
    pub handlers: Notes<'a, usize>,
}

impl<'a> Counts<'a> {
    /// How often each id is named in a model.
    pub fn of(alloc: Global, model: &'a Model) -> Result<Counts<'a>, AllocError>
        ensures { IfOk result (λ counts. Counted model.now counts) }
    {
        let nodes = model.nodes.as_slice();
        let flows = model.flows.as_slice();
        Ok(Counts {
            incoming: count_named(alloc, flows, &Target)?,
            outgoing: count_named(alloc, flows, &Origin)?,
            starts: count_named(alloc, nodes, &StartScope)?,
            message_starts: count_named(alloc, nodes, &MessageStartScope)?,
            boundaries: count_named(alloc, nodes, &Host)?,
            handlers: count_named(alloc, nodes, &Handler)?,
        })
    }
}

// The node to which a flow leads.
struct Target;

impl Naming<Flow> for Target {
    ghost use Rattle.std.specs.Prelude.{true};

    ghost names = { λ _ f. true };

    ghost named = { λ _ f. f.to };

    fn names(&self, _flow: &Flow) -> bool {
        true
    }

    fn named<'a>(&self, flow: &'a Flow) -> &'a Text {
        &flow.to
    }
}

// The node that a flow leaves.
struct Origin;

impl Naming<Flow> for Origin {
    ghost use Rattle.std.specs.Prelude.{true};

    ghost names = { λ _ f. true };

    ghost named = { λ _ f. f.from };

    fn names(&self, _flow: &Flow) -> bool {
        true
    }

    fn named<'a>(&self, flow: &'a Flow) -> &'a Text {
        &flow.from
    }
}

// The scope of a start event.
struct StartScope;

impl Naming<Node> for StartScope {
    ghost use Rattle.zb_faults.specs.Elements.{is_start};

    ghost names = { λ _ n. is_start n.kind };

    ghost named = { λ _ n. n.parent };

    fn names(&self, node: &Node) -> bool {
        is_start(node.kind)
    }

    fn named<'a>(&self, node: &'a Node) -> &'a Text {
        &node.parent
    }
}

// The scope of a start event that a message triggers.
struct MessageStartScope;

impl Naming<Node> for MessageStartScope {
    ghost use Rattle.zb_faults.specs.Elements.{is_message_start};

    ghost names = { λ _ n. is_message_start n.kind };

    ghost named = { λ _ n. n.parent };

    fn names(&self, node: &Node) -> bool {
        is_message_start(node.kind)
    }

    fn named<'a>(&self, node: &'a Node) -> &'a Text {
        &node.parent
    }
}

// The activity of a boundary event.
struct Host;

impl Naming<Node> for Host {
    ghost use Rattle.zb_faults.specs.Elements.{is_boundary};

    ghost names = { λ _ n. is_boundary n.kind };

    ghost named = { λ _ n. n.attached };

    fn names(&self, node: &Node) -> bool {
        is_boundary(node.kind)
    }

    fn named<'a>(&self, node: &'a Node) -> &'a Text {
        &node.attached
    }
}

// The handler that a compensation event names.
struct Handler;

impl Naming<Node> for Handler {
    ghost use Rattle.zb_faults.specs.Elements.{is_compensation_boundary};

    ghost names = { λ _ n. is_compensation_boundary n.kind };

    ghost named = { λ _ n. n.name };

    fn names(&self, node: &Node) -> bool {
        is_compensation_boundary(node.kind)
    }

    fn named<'a>(&self, node: &'a Node) -> &'a Text {
        &node.name
    }
}
