// Where the nodes and flows of a model stand, by their names.
ghost use Rattle.std.specs.Prelude.{◌<◌, ◌^◌, length, IfOk};
ghost use Rattle.zb_graph.specs.TellsPlaces.{TellsFlows, TellsNodes, TellsPlaces};

use crate::label::{FlowId, Host, NodeId, Origin, Started, Target};
use crate::places::{Places, places_by};
use std::alloc::{AllocError, Global};
use zb_process::{Flow, Model, Node};

/// Where the nodes and flows of a model stand.
#[derive(Drop)]
pub struct Index {
    pub nodes: NodePlaces,
    pub flows: FlowPlaces,
}

/// Where the nodes of a model stand.
#[derive(Drop)]
pub struct NodePlaces {
    /// Those of each id.
    pub by_id: Places,
    /// The boundary events at each activity.
    pub bounds: Places,
    /// The start events of each scope.
    pub starts: Places,
}

/// Where the flows of a model stand.
#[derive(Drop)]
pub struct FlowPlaces {
    /// Those of each id.
    pub by_id: Places,
    /// Those out of each node.
    pub outs: Places,
    /// Those into each node.
    pub ins: Places,
}

/// Where the nodes and flows of a model stand. It takes a step for each of them, on average.
pub fn index_of(alloc: Global, model: &Model) -> Result<Index, AllocError>
    requires nodes { length model.now.nodes < 2 ^ 32 }
    requires flows { length model.now.flows < 2 ^ 32 }
    ensures { IfOk result (TellsPlaces model.now) }
{
    let nodes = node_places(alloc, model.nodes.as_slice())?;
    match flow_places(alloc, model.flows.as_slice()) {
        Ok(flows) => Ok(Index { nodes, flows }),
        Err(no_memory) => {
            drop(nodes);
            Err(no_memory)
        }
    }
}

// Where some nodes stand.
fn node_places(alloc: Global, nodes: &[Node]) -> Result<NodePlaces, AllocError>
    requires { length nodes.now < 2 ^ 32 }
    ensures { IfOk result (TellsNodes nodes.now) }
{
    Ok(NodePlaces {
        by_id: places_by::<Node, NodeId>(alloc, nodes)?,
        bounds: places_by::<Node, Host>(alloc, nodes)?,
        starts: places_by::<Node, Started>(alloc, nodes)?,
    })
}

// Where some flows stand.
fn flow_places(alloc: Global, flows: &[Flow]) -> Result<FlowPlaces, AllocError>
    requires { length flows.now < 2 ^ 32 }
    ensures { IfOk result (TellsFlows flows.now) }
{
    Ok(FlowPlaces {
        by_id: places_by::<Flow, FlowId>(alloc, flows)?,
        outs: places_by::<Flow, Origin>(alloc, flows)?,
        ins: places_by::<Flow, Target>(alloc, flows)?,
    })
}
