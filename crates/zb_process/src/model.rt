ghost use Rattle.zb_process.specs.Layouts as layouts;

use crate::Expr;
use std::alloc::{AllocError, Global};
use zb_base::{List, Text};
use zb_format::{Cursor, Encoder, Fields, Format, ReadFault, Skip, pairs};

/// What a node is.
#[derive(Clone, Copy, Debug, PartialEq, Eq)]
pub enum NodeKind {
    StartEvent,
    MessageStartEvent,
    EndEvent,
    TerminateEndEvent,
    CompensationEndEvent,
    ServiceTask,
    ReceiveTask,
    SubProcess,
    ExclusiveGateway,
    ParallelGateway,
    EventBasedGateway,
    /// An intermediate catch event that waits for a date.
    DateCatchEvent,
    /// An intermediate catch event that waits for so long.
    DurationCatchEvent,
    /// An intermediate catch event that waits for a message.
    MessageCatchEvent,
    /// An intermediate throw event.
    ThrowEvent,
    /// An intermediate throw event that undoes what has finished.
    CompensationThrowEvent,
    DateBoundaryEvent,
    DurationBoundaryEvent,
    MessageBoundaryEvent,
    ErrorBoundaryEvent,
    CompensationBoundaryEvent,
}

/// A process model.
#[derive(Drop)]
pub struct Model {
    /// The id of the process.
    pub process: Text,
    /// The version tag, maybe empty.
    pub tag: Text,
    pub nodes: List<Node>,
    pub flows: List<Flow>,
}

#[tactic(auto, unfolding(crate::specs::Layouts::model))]
impl Format for Model {
    ghost layout = { layouts.model };

    fn write(&self, encoder: &mut Encoder) -> Result<(), AllocError> {
        pairs!(&self.process, &self.tag, &self.nodes, &self.flows).encode(encoder)
    }

    fn read(alloc: Global, cursor: &mut Cursor<'_>) -> Result<Model, ReadFault> {
        let pairs!(process, tag, nodes, flows) = Format::read(alloc, cursor)?;
        Ok(Model {
            process,
            tag,
            nodes,
            flows,
        })
    }
}

impl Skip for Model {}

/// A node of a model. A text that is absent is empty.
#[derive(Drop)]
pub struct Node {
    pub id: Text,
    pub kind: NodeKind,
    /// The id of its subprocess, empty at the top.
    pub parent: Text,
    /// The id of the activity at whose boundary it stands.
    pub attached: Text,
    /// Whether it ends that activity.
    pub cancel: bool,
    /// The id of the default flow.
    pub otherwise: Text,
    /// The job type, the message name, the error code or the id of the handler.
    pub name: Text,
    /// The correlation key, or the time.
    pub expr: Option<Expr>,
    pub retries: u32,
    /// Whether it undoes another activity.
    pub handler: bool,
    /// Whether it runs once for each item of a collection.
    pub multi: Option<Multi>,
    pub inputs: List<Mapping>,
    pub outputs: List<Mapping>,
}

#[tactic(auto, unfolding(crate::specs::Layouts::node))]
impl Format for Node {
    ghost layout = { layouts.node };

    fn write(&self, encoder: &mut Encoder) -> Result<(), AllocError> {
        pairs!(
            &self.id,
            &self.kind,
            &self.parent,
            &self.attached,
            &self.cancel,
            &self.otherwise,
            &self.name,
            &self.expr,
            &self.retries,
            &self.handler,
            &self.multi,
            &self.inputs,
            &self.outputs
        )
        .encode(encoder)
    }

    fn read(alloc: Global, cursor: &mut Cursor<'_>) -> Result<Node, ReadFault> {
        let pairs!(
            id, kind, parent, attached, cancel, otherwise, name, expr, retries, handler, multi,
            inputs, outputs
        ) = Format::read(alloc, cursor)?;
        Ok(Node {
            id,
            kind,
            parent,
            attached,
            cancel,
            otherwise,
            name,
            expr,
            retries,
            handler,
            multi,
            inputs,
            outputs,
        })
    }
}

/// A flow from one node to another.
#[derive(Drop)]
pub struct Flow {
    pub id: Text,
    pub from: Text,
    pub to: Text,
    pub condition: Option<Expr>,
}

#[tactic(auto, unfolding(crate::specs::Layouts::flow))]
impl Format for Flow {
    ghost layout = { layouts.flow };

    fn write(&self, encoder: &mut Encoder) -> Result<(), AllocError> {
        pairs!(&self.id, &self.from, &self.to, &self.condition).encode(encoder)
    }

    fn read(alloc: Global, cursor: &mut Cursor<'_>) -> Result<Flow, ReadFault> {
        let pairs!(id, from, to, condition) = Format::read(alloc, cursor)?;
        Ok(Flow {
            id,
            from,
            to,
            condition,
        })
    }
}

/// A run for each item of a collection.
#[derive(Drop)]
pub struct Multi {
    /// Whether one run ends before the next begins.
    pub sequential: bool,
    pub collection: Expr,
    /// The name of the variable that has the item.
    pub element: Text,
}

#[tactic(auto, unfolding(crate::specs::Layouts::multi))]
impl Format for Multi {
    ghost layout = { layouts.multi };

    fn write(&self, encoder: &mut Encoder) -> Result<(), AllocError> {
        pairs!(&self.sequential, &self.collection, &self.element).encode(encoder)
    }

    fn read(alloc: Global, cursor: &mut Cursor<'_>) -> Result<Multi, ReadFault> {
        let pairs!(sequential, collection, element) = Format::read(alloc, cursor)?;
        Ok(Multi {
            sequential,
            collection,
            element,
        })
    }
}

/// A value for a variable.
#[derive(Drop)]
pub struct Mapping {
    pub source: Expr,
    /// The name of the variable.
    pub target: Text,
}

#[tactic(auto, unfolding(crate::specs::Layouts::mapping))]
impl Format for Mapping {
    ghost layout = { layouts.mapping };

    fn write(&self, encoder: &mut Encoder) -> Result<(), AllocError> {
        (&self.source, &self.target).encode(encoder)
    }

    fn read(alloc: Global, cursor: &mut Cursor<'_>) -> Result<Mapping, ReadFault> {
        let (source, target) = Format::read(alloc, cursor)?;
        Ok(Mapping { source, target })
    }
}
