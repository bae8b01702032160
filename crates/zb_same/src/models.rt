// Process models.
use crate::Same;
use zb_model::{Flow, Mapping, Model, Multi, Node, Pair};

impl Same for Model {
    fn is_same(&self, other: &Model) -> bool {
        same!(self, other; process, tag, nodes, flows)
    }
}

impl Same for Node {
    fn is_same(&self, other: &Node) -> bool {
        same!(
            self, other;
            id, kind, parent, attached, cancel, otherwise, name, expr, retries, handler, multi,
            inputs, outputs
        )
    }
}

impl Same for Flow {
    fn is_same(&self, other: &Flow) -> bool {
        same!(self, other; id, from, to, condition)
    }
}

impl Same for Multi {
    fn is_same(&self, other: &Multi) -> bool {
        same!(self, other; sequential, collection, element)
    }
}

impl Same for Mapping {
    fn is_same(&self, other: &Mapping) -> bool {
        same!(self, other; source, target)
    }
}

impl Same for Pair {
    fn is_same(&self, other: &Pair) -> bool {
        same!(self, other; from, to)
    }
}
