ghost use Rattle.std.specs.Prelude.{◌≡◌, ◌∷◌, ◌++◌, ◌^◌, ◌<◌, ◌≤◌, [], length, IsOk, OnOk};
ghost use Rattle.zb_process.specs.ExprView.{tree_of};
ghost use Rattle.zb_process.specs.Expression as expressions;
ghost use Rattle.zb_format.specs.Encoded.{Adds, KeepsEncoded, IsCounting};
ghost use Rattle.zb_format.specs.Field as fields;
ghost use Rattle.zb_format.specs.Fits.{AreCounted};

use crate::{Expr, ExprNode, Operator};
use std::alloc::AllocError;
use zb_format::{Encoder, write_count, write_tagged};

#[cycle(write)]
pub fn write_tree(expr: &Expr, encoder: &mut Encoder) -> Result<(), AllocError>
    ensures added { OnOk result (Adds encoder.old (expressions.tree expr.now) encoder.new) }
    ensures kept { KeepsEncoded encoder.old encoder.new }
    ensures counts { IsCounting encoder.old → IsOk result }
    ensures some { OnOk result (1 ≤ length (expressions.tree expr.now)) }
    ensures fits { OnOk result (length (expressions.tree expr.now) < 2 ^ 32 → expressions.IsExpression expr.now) }
{
    write_node(&expr.node, encoder)
}

#[cycle(write)]
#[tactic(auto, using(crate::proofs::MemberLemmas::members), unfolding(zb_format::specs::Layout::signed, zb_format::specs::Layout::flag, zb_format::specs::Layout::text))]
fn write_node(node: &ExprNode, encoder: &mut Encoder) -> Result<(), AllocError>
    ensures added { OnOk result (Adds encoder.old (expressions.tree (tree_of node.now)) encoder.new) }
    ensures kept { KeepsEncoded encoder.old encoder.new }
    ensures counts { IsCounting encoder.old → IsOk result }
    ensures some { OnOk result (1 ≤ length (expressions.tree (tree_of node.now))) }
    ensures fits { OnOk result (length (expressions.tree (tree_of node.now)) < 2 ^ 32 → expressions.IsTree (tree_of node.now)) }
{
    match node {
        ExprNode::Int(number) => write_tagged(0, number, encoder),
        ExprNode::Bool(flag) => write_tagged(1, flag, encoder),
        ExprNode::Text(text) => write_tagged(2, text, encoder),
        ExprNode::Name(name) => write_tagged(3, name, encoder),
        ExprNode::List(members) => write_members(members.as_slice(), encoder),
        ExprNode::Not(operand) => write_unary(5, operand, encoder),
        ExprNode::Minus(operand) => write_unary(6, operand, encoder),
        ExprNode::Binary(operator, left, right) => write_binary(*operator, left, right, encoder),
    }
}

#[cycle(write)]
#[tactic(auto, using(crate::proofs::PieceLemmas::pieces))]
fn write_unary(tag: u8, operand: &Expr, encoder: &mut Encoder) -> Result<(), AllocError>
    ensures added { OnOk result (Adds encoder.old (tag ∷ expressions.tree operand.now) encoder.new) }
    ensures kept { KeepsEncoded encoder.old encoder.new }
    ensures counts { IsCounting encoder.old → IsOk result }
    ensures fits { OnOk result (length (expressions.tree operand.now) < 2 ^ 32 → expressions.IsTree operand.now) }
{
    encoder.add(&[tag])?;
    write_tree(operand, encoder)
}

#[cycle(write)]
#[tactic(auto, using(crate::proofs::PieceLemmas::pieces))]
fn write_binary(
    operator: Operator,
    left: &Expr,
    right: &Expr,
    encoder: &mut Encoder,
) -> Result<(), AllocError>
    ensures added { OnOk result (Adds encoder.old (expressions.operator operator ∷ (expressions.tree left.now ++ expressions.tree right.now)) encoder.new) }
    ensures kept { KeepsEncoded encoder.old encoder.new }
    ensures counts { IsCounting encoder.old → IsOk result }
    ensures fits { OnOk result (length (expressions.tree left.now ++ expressions.tree right.now) < 2 ^ 32 → expressions.IsTree left.now × expressions.IsTree right.now) }
{
    write_unary(byte_of(operator), left, encoder)?;
    write_tree(right, encoder)
}

#[cycle(write)]
#[tactic(auto, using(crate::proofs::PieceLemmas::pieces, crate::proofs::MemberLemmas::members), unfolding(zb_format::specs::Field::counted_bytes))]
fn write_members(members: &[Expr], encoder: &mut Encoder) -> Result<(), AllocError>
    ensures added { OnOk result (Adds encoder.old (4 ∷ fields.counted_bytes expressions.tree members.now) encoder.new) }
    ensures kept { KeepsEncoded encoder.old encoder.new }
    ensures counts { IsCounting encoder.old → IsOk result }
    ensures fits { OnOk result (length (fields.counted_bytes expressions.tree members.now) < 2 ^ 32 → AreCounted expressions.IsTree members.now) }
{
    encoder.add(&[4])?;
    write_count(members.len(), encoder)?;
    for member in members {
        write_tree(member, encoder)?;
    }
    Ok(())
}

// The byte of an operator.
fn byte_of(operator: Operator) -> u8
    ensures { result ≡ expressions.operator operator }
{
    match operator {
        Operator::Add => 7,
        Operator::Subtract => 8,
        Operator::Multiply => 9,
        Operator::Equal => 10,
        Operator::NotEqual => 11,
        Operator::Less => 12,
        Operator::AtMost => 13,
        Operator::Greater => 14,
        Operator::AtLeast => 15,
        Operator::And => 16,
        Operator::Or => 17,
    }
}
