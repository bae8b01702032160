// Expressions, part by part.
ghost use Rattle.std.specs.Prelude.{◌≡◌, ◌↔◌, IsTrue};
ghost use Rattle.zb_process.specs.ExprView.{tree_of};

use crate::Same;
use zb_model::{Expr, ExprNode};

impl Same for Expr {
    fn is_same(&self, other: &Expr) -> bool {
        is_same_expr(self, other)
    }
}

#[cycle(expressions)]
fn is_same_expr(one: &Expr, two: &Expr) -> bool
    ensures { IsTrue result ↔ (one.now ≡ two.now) }
{
    is_same_node(&one.node, &two.node)
}

#[cycle(expressions)]
fn is_same_node(one: &ExprNode, two: &ExprNode) -> bool
    ensures { IsTrue result ↔ (tree_of one.now ≡ tree_of two.now) }
{
    match (one, two) {
        (ExprNode::Int(a), ExprNode::Int(b)) => *a == *b,
        (ExprNode::Bool(a), ExprNode::Bool(b)) => *a == *b,
        (ExprNode::Text(a), ExprNode::Text(b)) => a.is_same(b),
        (ExprNode::Name(a), ExprNode::Name(b)) => a.is_same(b),
        (ExprNode::List(a), ExprNode::List(b)) => are_same_exprs(a.as_slice(), b.as_slice()),
        (ExprNode::Not(a), ExprNode::Not(b)) => is_same_expr(a, b),
        (ExprNode::Minus(a), ExprNode::Minus(b)) => is_same_expr(a, b),
        (ExprNode::Binary(p, a, b), ExprNode::Binary(q, c, d)) => {
            *p == *q && is_same_expr(a, c) && is_same_expr(b, d)
        }
        _ => false,
    }
}

#[cycle(expressions)]
#[tactic(auto, using(zb_process::proofs::NestingLemmas::members))]
fn are_same_exprs(these: &[Expr], those: &[Expr]) -> bool
    ensures { IsTrue result ↔ (these.now ≡ those.now) }
{
    if these.len() != those.len() {
        return false;
    }
    for place in 0..these.len() {
        if !is_same_expr(&these[place], &those[place]) {
            return false;
        }
    }
    true
}
