// Copies of process models.
ghost use Rattle.std.specs.Prelude.{◌≡◌, OnOk};

use crate::{Flow, Mapping, Model, Multi, Node};
use std::alloc::{AllocError, Global};
use zb_base::{List, Text, TryCopy};

impl TryCopy for Model {
    fn copy(&self, alloc: Global) -> Result<Model, AllocError> {
        Ok(Model {
            process: self.process.copy(alloc)?,
            tag: self.tag.copy(alloc)?,
            nodes: self.nodes.copy(alloc)?,
            flows: self.flows.copy(alloc)?,
        })
    }
}

impl TryCopy for Node {
    fn copy(&self, alloc: Global) -> Result<Node, AllocError> {
        let mut node = bare_copy(alloc, self);
        match copy_parts(alloc, self, &mut node) {
            Ok(()) => Ok(node),
            Err(AllocError) => {
                drop(node);
                Err(AllocError)
            }
        }
    }
}

// What of a node wants no memory, and no text, expression or list.
fn bare_copy(alloc: Global, node: &Node) -> Node
    ensures kind { result.kind ≡ node.now.kind }
    ensures cancel { result.cancel ≡ node.now.cancel }
    ensures retries { result.retries ≡ node.now.retries }
    ensures handler { result.handler ≡ node.now.handler }
{
    Node {
        id: Text::empty(alloc),
        kind: node.kind,
        parent: Text::empty(alloc),
        attached: Text::empty(alloc),
        cancel: node.cancel,
        otherwise: Text::empty(alloc),
        name: Text::empty(alloc),
        expr: None,
        retries: node.retries,
        handler: node.handler,
        multi: None,
        inputs: List::empty(alloc),
        outputs: List::empty(alloc),
    }
}

// Copies a node's texts, its expression and its lists into another one. After a refusal that one is only dropped.
fn copy_parts(alloc: Global, node: &Node, into: &mut Node) -> Result<(), AllocError>
    ensures { OnOk result (into.new ≡ record node.now {
      kind = into.old.kind;
      cancel = into.old.cancel;
      retries = into.old.retries;
      handler = into.old.handler;
    }) }
{
    into.id = node.id.copy(alloc)?;
    into.parent = node.parent.copy(alloc)?;
    into.attached = node.attached.copy(alloc)?;
    into.otherwise = node.otherwise.copy(alloc)?;
    into.name = node.name.copy(alloc)?;
    into.expr = node.expr.copy(alloc)?;
    into.multi = node.multi.copy(alloc)?;
    into.inputs = node.inputs.copy(alloc)?;
    into.outputs = node.outputs.copy(alloc)?;
    Ok(())
}

impl TryCopy for Flow {
    fn copy(&self, alloc: Global) -> Result<Flow, AllocError> {
        Ok(Flow {
            id: self.id.copy(alloc)?,
            from: self.from.copy(alloc)?,
            to: self.to.copy(alloc)?,
            condition: self.condition.copy(alloc)?,
        })
    }
}

impl TryCopy for Multi {
    fn copy(&self, alloc: Global) -> Result<Multi, AllocError> {
        Ok(Multi {
            sequential: self.sequential,
            collection: self.collection.copy(alloc)?,
            element: self.element.copy(alloc)?,
        })
    }
}

impl TryCopy for Mapping {
    fn copy(&self, alloc: Global) -> Result<Mapping, AllocError> {
        Ok(Mapping {
            source: self.source.copy(alloc)?,
            target: self.target.copy(alloc)?,
        })
    }
}
