ghost use Rattle.std.specs.Prelude.{◌≡◌, ◌≤◌, ◌↔◌, IfOk, IfSome, IsSome};
ghost use Rattle.zb_process.specs.Tree.{nesting, nesting_over, trees_of};
ghost use Rattle.zb_process.specs.ExprView.{tree_of};

use crate::Operator;
use std::alloc::{AllocError, Global};
use std::marker::Model;
use zb_base::{Text, TryCopy};

/// An expression. At most 64 expressions stand around one leaf.
#[cycle(expr)]
#[derive(Drop)]
pub struct Expr {
    pub node: ExprNode,
}

/// What an expression is made of.
#[cycle(expr)]
#[derive(Drop)]
pub enum ExprNode {
    Int(i64),
    Bool(bool),
    Text(Text),
    Name(Text),
    List(Vec<Expr>),
    Not(Box<Expr>),
    Minus(Box<Expr>),
    Binary(Operator, Box<Expr>, Box<Expr>),
}

impl Model for Expr {
    ghost use Rattle.std.specs.Prelude.{◌≤◌};
    ghost use Rattle.zb_process.specs.Tree.{Tree, nesting};
    ghost use Rattle.zb_process.specs.TreeCode.{tree_code};

    ghost Value = { Tree };

    ghost coded = { tree_code };

    ghost use Rattle.zb_process.specs.ExprView.{tree_of};

    ghost view = { λ e. tree_of e.node };

    ghost invariant = { λ e. nesting (tree_of e.node) ≤ 64 };

    ghost size = { nesting };

    ghost use Rattle.zb_process.specs.ExprLaws.{parts_below};

    ghost size_decreases = { λ e h. parts_below e.node };
}

impl Expr {
    /// How many expressions may stand around one leaf.
    pub const MOST_NESTED: u64 = 64;

    /// The expression that is made of this node. None where more than 64 expressions would stand around a leaf.
    /// It takes a step for each expression in it.
    pub fn new(node: ExprNode) -> Option<Expr>
        ensures made { IfSome result (λ e. e ≡ tree_of node) }
        ensures fits { IsSome result ↔ (nesting (tree_of node) ≤ 64) }
    {
        if node_nesting(&node) <= Expr::MOST_NESTED {
            Some(Expr { node })
        } else {
            None
        }
    }

    /// How many expressions stand around the leaf that has the most. A list without members is a leaf.
    /// It takes a step for each expression in it.
    #[cycle(nesting)]
    pub fn nesting(&self) -> u64
        ensures value { result ≡ nesting self.now }
        ensures few { result ≤ 64 }
    {
        node_nesting(&self.node)
    }
}

impl TryCopy for Expr {
    fn copy(&self, alloc: Global) -> Result<Expr, AllocError> {
        copy_expr(self, alloc)
    }
}

#[cycle(copy)]
fn copy_expr(expr: &Expr, alloc: Global) -> Result<Expr, AllocError>
    ensures { IfOk result (λ copy. copy ≡ expr.now) }
{
    Ok(Expr {
        node: copy_node(&expr.node, alloc)?,
    })
}

#[cycle(nesting)]
fn node_nesting(node: &ExprNode) -> u64
    ensures { result ≡ nesting (tree_of node.now) }
{
    match node {
        ExprNode::Int(_) | ExprNode::Bool(_) | ExprNode::Text(_) | ExprNode::Name(_) => 0,
        ExprNode::List(members) => members_nesting(members.as_slice()),
        ExprNode::Not(operand) => operand.nesting() + 1,
        ExprNode::Minus(operand) => operand.nesting() + 1,
        ExprNode::Binary(_, left, right) => left.nesting().max(right.nesting()) + 1,
    }
}

#[cycle(nesting)]
#[tactic(auto, using(crate::proofs::NestingLemmas::members))]
fn members_nesting(members: &[Expr]) -> u64
    ensures { result ≡ nesting_over (trees_of members.now) }
{
    let mut most = 0;
    for member in members {
        most = most.max(member.nesting() + 1);
    }
    most
}

#[cycle(copy)]
fn copy_node(node: &ExprNode, alloc: Global) -> Result<ExprNode, AllocError>
    ensures { IfOk result (λ copy. tree_of copy ≡ tree_of node.now) }
{
    match node {
        ExprNode::Int(number) => Ok(ExprNode::Int(*number)),
        ExprNode::Bool(flag) => Ok(ExprNode::Bool(*flag)),
        ExprNode::Text(text) => Ok(ExprNode::Text(text.copy(alloc)?)),
        ExprNode::Name(name) => Ok(ExprNode::Name(name.copy(alloc)?)),
        ExprNode::List(members) => Ok(ExprNode::List(copy_members(members.as_slice(), alloc)?)),
        ExprNode::Not(operand) => Ok(ExprNode::Not(Box::new(alloc, copy_expr(operand, alloc)?)?)),
        ExprNode::Minus(operand) => Ok(ExprNode::Minus(Box::new(
            alloc,
            copy_expr(operand, alloc)?,
        )?)),
        ExprNode::Binary(operator, left, right) => Ok(ExprNode::Binary(
            *operator,
            Box::new(alloc, copy_expr(left, alloc)?)?,
            Box::new(alloc, copy_expr(right, alloc)?)?,
        )),
    }
}

#[cycle(copy)]
#[tactic(auto, using(crate::proofs::NestingLemmas::members))]
fn copy_members(members: &[Expr], alloc: Global) -> Result<Vec<Expr>, AllocError>
    ensures { IfOk result (λ copy. copy.items ≡ members.now) }
{
    let mut copies = Vec::with_capacity(alloc, members.len())?;
    for member in members {
        copies.push(copy_expr(member, alloc)?)?;
    }
    Ok(copies)
}
