// A model, and what is looked up in it.
ghost use Rattle.std.specs.Prelude.{◌≡◌, map, IfOk};
ghost use Rattle.std.specs.Option.{option_copied};
ghost use Rattle.zb_faults.specs.Elements.{ids_of, node_with, flow_with, incoming, outgoing};
ghost use Rattle.zb_faults.specs.Elements.{is_start, is_message_start};
ghost use Rattle.zb_faults.specs.Faults.{starts_in, has_boundary, names_handler};

use crate::counts::Counts;
use crate::ids::{by_id, ids_of};
use crate::notes::Notes;
use std::alloc::{AllocError, Global};
use std::marker::Model;
use zb_base::Text;
use zb_process::{Flow, Model as ProcessModel, Node};

/// A model, whose nodes and flows are found by their ids. Contracts see the model.
#[derive(Drop)]
pub struct Parts<'a> {
    model: &'a ProcessModel,
    ids: Vec<&'a Text>,
    nodes: Notes<'a, &'a Node>,
    flows: Notes<'a, &'a Flow>,
    counts: Counts<'a>,
}

impl<'a> Model for Parts<'a> {
    ghost use Rattle.zb_process.specs.declared.model.Model as processes;
    ghost use Rattle.zb_process.specs.contracts.model.Model as process;
    ghost use Rattle.zb_check.specs.Parts.{HasParts};

    ghost Value = { processes.Model };

    ghost coded = { process.the_row.coded };

    ghost view = { λ p. p.model.now };

    ghost invariant = { λ p. HasParts p.model.now p.ids.items p.nodes p.flows p.counts };
}

#[tactic(auto, using(crate::proofs::LookLemmas::some_counted))]
impl<'a> Parts<'a> {
    /// The parts of a model.
    pub fn of(alloc: Global, model: &'a ProcessModel) -> Result<Parts<'a>, AllocError>
        ensures { IfOk result (λ parts. parts ≡ model.now) }
    {
        let nodes = model.nodes.as_slice();
        let flows = model.flows.as_slice();
        Ok(Parts {
            model,
            ids: ids_of(alloc, model)?,
            nodes: by_id(alloc, nodes)?,
            flows: by_id(alloc, flows)?,
            counts: Counts::of(alloc, model)?,
        })
    }

    /// The id of the process.
    pub fn process(&self) -> &'a Text
        ensures { result.now ≡ self.now.process }
    {
        &self.model.process
    }

    /// The nodes, in order.
    pub fn nodes(&self) -> &'a [Node]
        ensures { result.now ≡ self.now.nodes }
    {
        self.model.nodes.as_slice()
    }

    /// The flows, in order.
    pub fn flows(&self) -> &'a [Flow]
        ensures { result.now ≡ self.now.flows }
    {
        self.model.flows.as_slice()
    }

    /// The ids, in order: the process, the nodes, the flows.
    pub fn ids(&self) -> &[&'a Text]
        ensures { map (λ id. id.now) result.now ≡ ids_of self.now }
    {
        self.ids.as_slice()
    }

    /// The node with an id.
    pub fn node(&self, id: &Text) -> Option<&'a Node>
        ensures { option_copied result ≡ node_with self.now id.now }
    {
        self.nodes.get(id)
    }

    /// The flow with an id.
    pub fn flow(&self, id: &Text) -> Option<&'a Flow>
        ensures { option_copied result ≡ flow_with self.now id.now }
    {
        self.flows.get(id)
    }

    /// How many flows lead to a node.
    pub fn incoming(&self, id: &Text) -> usize
        ensures { result ≡ incoming self.now id.now }
    {
        self.counts.incoming.count(id)
    }

    /// How many flows leave a node.
    pub fn outgoing(&self, id: &Text) -> usize
        ensures { result ≡ outgoing self.now id.now }
    {
        self.counts.outgoing.count(id)
    }

    /// How many start events a scope has; the process has the empty id.
    pub fn starts(&self, id: &Text) -> usize
        ensures { result ≡ starts_in self.now is_start id.now }
    {
        self.counts.starts.count(id)
    }

    /// How many start events that a message triggers a scope has.
    pub fn message_starts(&self, id: &Text) -> usize
        ensures { result ≡ starts_in self.now is_message_start id.now }
    {
        self.counts.message_starts.count(id)
    }

    /// Whether an activity has boundary events.
    pub fn has_boundary(&self, id: &Text) -> bool
        ensures { result ≡ has_boundary self.now.nodes id.now }
    {
        self.counts.boundaries.count(id) > 0
    }

    /// Whether a compensation event names a handler.
    pub fn names_handler(&self, id: &Text) -> bool
        ensures { result ≡ names_handler self.now.nodes id.now }
    {
        self.counts.handlers.count(id) > 0
    }
}
