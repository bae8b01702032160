// The codes of a model's expressions.
ghost use Rattle.std.specs.Prelude.{◌≡◌, IfOk, map};
ghost use Rattle.std.specs.Option.{option_copied};
ghost use Rattle.zb_graph.specs.Codes.{codes_of, codes_of_node};

use std::alloc::{AllocError, Global};
use zb_base::List;
use zb_expr::{Code, compile};
use zb_process::{Expr, Flow, Mapping, Model, Node};

/// The codes of a model's expressions.
#[derive(Drop)]
pub struct Codes {
    /// Of the condition of each flow.
    pub conditions: List<Option<Code>>,
    /// Of what each node evaluates.
    pub nodes: List<NodeCodes>,
}

/// The codes of what a node evaluates.
#[derive(Drop)]
pub struct NodeCodes {
    pub expr: Option<Code>,
    pub collection: Option<Code>,
    /// Of the sources of its inputs.
    pub inputs: List<Code>,
    /// Of the sources of its outputs.
    pub outputs: List<Code>,
}

/// What has expressions, and codes of them.
pub trait HasCodes<C> {
    ghost codes: { Self → C };

    /// The codes of its expressions. It takes a step for each expression in them, and for each byte of their texts.
    fn compiled(&self, alloc: Global) -> Result<C, AllocError>
        ensures { IfOk result (λ made. made ≡ codes self.now) };
}

impl HasCodes<Codes> for Model {
    ghost codes = { codes_of };

    fn compiled(&self, alloc: Global) -> Result<Codes, AllocError> {
        Ok(Codes {
            conditions: all_compiled(alloc, self.flows.as_slice())?,
            nodes: all_compiled(alloc, self.nodes.as_slice())?,
        })
    }
}

impl HasCodes<Option<Code>> for Flow {
    ghost codes = { λ f. f.condition };

    fn compiled(&self, alloc: Global) -> Result<Option<Code>, AllocError> {
        maybe_compiled(alloc, self.condition.as_ref())
    }
}

impl HasCodes<NodeCodes> for Node {
    ghost codes = { codes_of_node };

    fn compiled(&self, alloc: Global) -> Result<NodeCodes, AllocError> {
        let collection = self.multi.as_ref().map(|multi| &multi.collection);
        Ok(NodeCodes {
            expr: maybe_compiled(alloc, self.expr.as_ref())?,
            collection: maybe_compiled(alloc, collection)?,
            inputs: all_compiled(alloc, self.inputs.as_slice())?,
            outputs: all_compiled(alloc, self.outputs.as_slice())?,
        })
    }
}

impl HasCodes<Code> for Mapping {
    ghost codes = { λ m. m.source };

    fn compiled(&self, alloc: Global) -> Result<Code, AllocError> {
        compile(alloc, &self.source)
    }
}

// The codes of the expressions of each of these.
fn all_compiled<C: Drop, T: HasCodes<C>>(alloc: Global, items: &[T]) -> Result<List<C>, AllocError>
    ensures { IfOk result (λ made. made ≡ map T.codes items.now) }
{
    let mut made = List::with_capacity(alloc, items.len())?;
    for item in items {
        made.push(item.compiled(alloc)?)?;
    }
    Ok(made)
}

// The code of an expression, if there is one.
fn maybe_compiled(alloc: Global, expr: Option<&Expr>) -> Result<Option<Code>, AllocError>
    ensures { IfOk result (λ made. made ≡ option_copied expr.entry) }
{
    match expr {
        Some(expr) => Ok(Some(compile(alloc, expr)?)),
        None => Ok(None),
    }
}
