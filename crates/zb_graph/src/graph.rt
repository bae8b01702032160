ghost use Rattle.std.specs.Prelude.{◌≡◌, ◌<◌, ◌^◌, ◌&&◌, List, ℕ, All, Some, IfOk, filter, length, map, position, slice_get};
ghost use Rattle.std.specs.List.{find};
ghost use Rattle.std.specs.Option.{option_and_then, option_copied, option_map};
ghost use Rattle.std.specs.Str.{bytes_eq};
ghost use Rattle.zb_faults.specs.Elements.{is_boundary_of, is_start};
ghost use Rattle.zb_graph.specs.Places.{places};
ghost use Rattle.zb_graph.specs.Links.{bounds_of, id_at, ins_of, outs_of};
ghost use Rattle.zb_graph.specs.Codes.{codes_of, codes_of_node, inputs_at, outputs_at};

use crate::codes::{Codes, HasCodes, NodeCodes};
use crate::index::{Index, index_of};
use std::alloc::{AllocError, Global};
use std::marker::Model;
use zb_expr::Code;
use zb_process::{Flow, Model as ProcessModel, Node};

/// A process model, whose nodes and flows have their places in its lists as numbers, and the codes of its expressions.
/// Contracts see the model.
#[derive(Drop)]
pub struct Graph {
    model: ProcessModel,
    // Where its nodes and flows stand.
    index: Index,
    // The codes of its expressions.
    codes: Codes,
}

impl Model for Graph {
    ghost use Rattle.zb_process.specs.declared.model.Model.{Model};
    ghost use Rattle.zb_process.specs.contracts.model.Model as process;

    ghost Value = { Model };

    ghost coded = { process.the_row.coded };

    ghost use Rattle.zb_graph.specs.IsGraph.{IsGraph};

    ghost view = { λ g. g.model };

    ghost invariant = { λ g. IsGraph g.model g.index g.codes };
}

// How many nodes, and how many flows, are too many to be numbered.
const TOO_MANY: usize = 1 << 32;

/// The graph of a model. Its expressions are compiled here, once. It is refused as well where it has 2^32 nodes or flows,
/// or more. It takes a step for each node, each flow and each expression in them, and for each byte of these expressions'
/// texts, on average.
pub fn compile(alloc: Global, model: ProcessModel) -> Result<Graph, AllocError>
    ensures { IfOk result (λ graph. graph ≡ model) }
{
    if model.nodes.as_slice().len() >= TOO_MANY || model.flows.as_slice().len() >= TOO_MANY {
        drop(model);
        return Err(AllocError);
    }
    match model.compiled(alloc) {
        Ok(codes) => with_codes(alloc, model, codes),
        Err(no_memory) => {
            drop(model);
            Err(no_memory)
        }
    }
}

// The graph of a model, whose expressions have these codes.
fn with_codes(alloc: Global, model: ProcessModel, codes: Codes) -> Result<Graph, AllocError>
    requires nodes { length model.nodes < 2 ^ 32 }
    requires flows { length model.flows < 2 ^ 32 }
    requires codes { codes ≡ codes_of model }
    ensures { IfOk result (λ graph. graph ≡ model) }
{
    match index_of(alloc, &model) {
        Ok(index) => Ok(Graph {
            model,
            index,
            codes,
        }),
        Err(no_memory) => {
            drop(model);
            drop(codes);
            Err(no_memory)
        }
    }
}

impl Graph {
    /// Lets go of it.
    pub fn discard(self) {
        drop(self);
    }

    /// The model that it was made of.
    pub fn model(&self) -> &ProcessModel
        ensures { result.now ≡ self.now }
    {
        &self.model
    }

    /// How many nodes there are: each number below is that of one.
    pub fn node_count(&self) -> u32
        ensures { result ≡ length self.now.nodes }
    {
        self.model.nodes.as_slice().len() as u32
    }

    /// The number of the node with an id: the place of the first one. It takes constant time on average.
    pub fn number(&self, id: &str) -> Option<u32>
        ensures { result ≡ position (λ n. bytes_eq n.id id.now) self.now.nodes }
    {
        self.index.nodes.by_id.at(id).first().copied()
    }

    /// The node with a number.
    pub fn node(&self, n: u32) -> &Node
        requires { n < length self.now.nodes }
        ensures { slice_get self.now.nodes n ≡ Some result.now }
    {
        &self.model.nodes.as_slice()[n as usize]
    }

    /// The flow with a number.
    pub fn flow(&self, n: u32) -> &Flow
        requires { n < length self.now.flows }
        ensures { slice_get self.now.flows n ≡ Some result.now }
    {
        &self.model.flows.as_slice()[n as usize]
    }

    /// The numbers of the flows out of a node, in the order of the model. It takes constant time on average, as do
    /// `ins` and `bounds`.
    pub fn outs(&self, n: u32) -> &[u32]
        requires { n < length self.now.nodes }
        ensures { result.now ≡ outs_of self.now (id_at self.now n) }
    {
        self.outs_of(self.node(n).id.as_str())
    }

    /// The numbers of the flows into a node, in the order of the model.
    pub fn ins(&self, n: u32) -> &[u32]
        requires { n < length self.now.nodes }
        ensures { result.now ≡ ins_of self.now (id_at self.now n) }
    {
        self.ins_of(self.node(n).id.as_str())
    }

    /// The numbers of the boundary events at a node, in the order of the model.
    pub fn bounds(&self, n: u32) -> &[u32]
        requires { n < length self.now.nodes }
        ensures { result.now ≡ bounds_of self.now (id_at self.now n) }
    {
        self.bounds_of(self.node(n).id.as_str())
    }

    /// The node with an id. It takes constant time on average, as do the other questions by a name.
    pub fn node_with(&self, id: &str) -> Option<&Node>
        ensures { option_copied result ≡ find (λ n. bytes_eq n.id id.now) self.now.nodes }
    {
        first_of(self.index.nodes.by_id.at(id), self.model.nodes.as_slice())
    }

    /// The flow with an id.
    pub fn flow_with(&self, id: &str) -> Option<&Flow>
        ensures { option_copied result ≡ find (λ f. bytes_eq f.id id.now) self.now.flows }
    {
        first_of(self.index.flows.by_id.at(id), self.model.flows.as_slice())
    }

    /// The numbers of the flows with an id, in the order of the model.
    pub fn flows_with(&self, id: &str) -> &[u32]
        ensures { map (slice_get self.now.flows) result.now ≡ map Some (filter (λ f. bytes_eq f.id id.now) self.now.flows) }
    {
        self.index.flows.by_id.at(id)
    }

    /// The numbers of the flows out of the node with an id, in the order of the model.
    pub fn outs_of(&self, id: &str) -> &[u32]
        ensures places { result.now ≡ outs_of self.now id.now }
        ensures flows { map (slice_get self.now.flows) result.now ≡ map Some (filter (λ f. bytes_eq f.from id.now) self.now.flows) }
    {
        self.index.flows.outs.at(id)
    }

    /// The numbers of the flows into the node with an id, in the order of the model.
    pub fn ins_of(&self, id: &str) -> &[u32]
        ensures places { result.now ≡ ins_of self.now id.now }
        ensures flows { map (slice_get self.now.flows) result.now ≡ map Some (filter (λ f. bytes_eq f.to id.now) self.now.flows) }
    {
        self.index.flows.ins.at(id)
    }

    /// The numbers of the boundary events at the activity with an id, in the order of the model.
    pub fn bounds_of(&self, id: &str) -> &[u32]
        ensures places { result.now ≡ bounds_of self.now id.now }
        ensures nodes { map (slice_get self.now.nodes) result.now ≡ map Some (filter (is_boundary_of id.now) self.now.nodes) }
    {
        self.index.nodes.bounds.at(id)
    }

    /// The start event of a scope: the id of a subprocess, or the empty text at the top.
    pub fn start_in(&self, scope: &str) -> Option<&Node>
        ensures { option_copied result ≡ find (λ n. is_start n.kind && bytes_eq n.parent scope.now) self.now.nodes }
    {
        first_of(
            self.index.nodes.starts.at(scope),
            self.model.nodes.as_slice(),
        )
    }

    /// The code of the condition of a flow, if it has one. It takes constant time, as do the other questions for codes.
    pub fn condition(&self, n: u32) -> Option<&Code>
        requires { n < length self.now.flows }
        ensures { option_copied result ≡ option_and_then (λ f. f.condition) (slice_get self.now.flows n) }
    {
        self.codes.conditions.as_slice()[n as usize].as_ref()
    }

    /// The code of the expression of a node, if it has one.
    pub fn expr(&self, n: u32) -> Option<&Code>
        requires { n < length self.now.nodes }
        ensures { option_copied result ≡ option_and_then (λ node. node.expr) (slice_get self.now.nodes n) }
    {
        self.codes_at(n).expr.as_ref()
    }

    /// The code of the collection of a node, if it runs once for each item of one.
    pub fn collection(&self, n: u32) -> Option<&Code>
        requires { n < length self.now.nodes }
        ensures { option_copied result ≡ option_and_then (λ node. option_map (λ m. m.collection) node.multi) (slice_get self.now.nodes n) }
    {
        self.codes_at(n).collection.as_ref()
    }

    /// The code of the source of an input of a node: of the one at place `i` in its list.
    pub fn input(&self, n: u32, i: usize) -> &Code
        requires { i < length (inputs_at self.now n) }
        ensures { option_map (λ m. m.source) (slice_get (inputs_at self.now n) i) ≡ Some result.now }
    {
        &self.codes_at(n).inputs.as_slice()[i]
    }

    /// The code of the source of an output of a node.
    pub fn output(&self, n: u32, i: usize) -> &Code
        requires { i < length (outputs_at self.now n) }
        ensures { option_map (λ m. m.source) (slice_get (outputs_at self.now n) i) ≡ Some result.now }
    {
        &self.codes_at(n).outputs.as_slice()[i]
    }

    // The codes of what a node evaluates.
    fn codes_at(&self, n: u32) -> &NodeCodes
        requires { n < length self.now.nodes }
        ensures { option_map codes_of_node (slice_get self.now.nodes n) ≡ Some result.now }
    {
        &self.codes.nodes.as_slice()[n as usize]
    }
}

// The item at the first of some places.
fn first_of<'a, T>(places: &[u32], items: &'a [T]) -> Option<&'a T>
    ensures { option_copied result ≡ option_and_then (slice_get items.now) (slice_get places.now 0) }
{
    match places.first() {
        Some(place) => items.get(*place as usize),
        None => None,
    }
}
