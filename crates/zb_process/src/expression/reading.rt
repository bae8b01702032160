ghost use Rattle.std.specs.Prelude.{◌≡◌, ◌<◌, ◌≤◌, IfOk};
ghost use Rattle.zb_process.specs.ExprView.{tree_of};
ghost use Rattle.zb_process.specs.Tree.{nesting, nesting_over, trees_of};
ghost use Rattle.zb_process.specs.Expression as expressions;
ghost use Rattle.zb_format.specs.Reading.{Reads, ReadsAs, counted_at, many_at, one_of};

use crate::{Expr, ExprNode, Operator};
use std::alloc::Global;
use zb_base::Text;
use zb_format::{Cursor, Format, ReadFault};

/// Reads an expression of fewer levels.
#[cycle(read)]
#[tactic(auto, unfolding(crate::specs::Expression::tree_at))]
pub fn read_tree(alloc: Global, levels: u32, cursor: &mut Cursor<'_>) -> Result<Expr, ReadFault>
    requires { levels ≤ 65 }
    ensures read { Reads (expressions.tree_at levels cursor.old) result cursor.new }
    ensures below { IfOk result (λ expr. nesting expr < levels) }
{
    if levels == 0 {
        return Err(ReadFault::NotSpelled);
    }
    let node = read_node(alloc, levels - 1, cursor)?;
    Ok(Expr { node })
}

// Reads what an expression is made of, whose parts have fewer levels.
#[cycle(read)]
#[tactic(auto, using(crate::proofs::MemberLemmas::members), unfolding(zb_format::specs::Layout::signed, zb_format::specs::Layout::flag, zb_format::specs::Layout::text))]
fn read_node(alloc: Global, levels: u32, cursor: &mut Cursor<'_>) -> Result<ExprNode, ReadFault>
    requires { levels < 65 }
    ensures read { ReadsAs tree_of (expressions.tree_with (expressions.tree_at levels) cursor.old) result cursor.new }
    ensures below { IfOk result (λ node. nesting (tree_of node) ≤ levels) }
{
    match cursor.byte()? {
        0 => Ok(ExprNode::Int(<i64 as Format>::read(alloc, cursor)?)),
        1 => Ok(ExprNode::Bool(bool::read(alloc, cursor)?)),
        2 => Ok(ExprNode::Text(Text::read(alloc, cursor)?)),
        3 => Ok(ExprNode::Name(Text::read(alloc, cursor)?)),
        4 => Ok(ExprNode::List(read_members(alloc, levels, cursor)?)),
        5 => Ok(ExprNode::Not(read_boxed(alloc, levels, cursor)?)),
        6 => Ok(ExprNode::Minus(read_boxed(alloc, levels, cursor)?)),
        tag => read_binary(alloc, tag, levels, cursor),
    }
}

#[cycle(read)]
fn read_boxed(alloc: Global, levels: u32, cursor: &mut Cursor<'_>) -> Result<Box<Expr>, ReadFault>
    requires { levels < 65 }
    ensures read { ReadsAs (λ expr. expr.value) (expressions.tree_at levels cursor.old) result cursor.new }
    ensures below { IfOk result (λ expr. nesting expr.value < levels) }
{
    Ok(Box::new(alloc, read_tree(alloc, levels, cursor)?)?)
}

// Reads the two operands behind the byte of an operator.
#[cycle(read)]
fn read_binary(
    alloc: Global,
    tag: u8,
    levels: u32,
    cursor: &mut Cursor<'_>,
) -> Result<ExprNode, ReadFault>
    requires { levels < 65 }
    ensures read { ReadsAs tree_of (expressions.operator_arm (expressions.tree_at levels) tag cursor.old) result cursor.new }
    ensures below { IfOk result (λ node. nesting (tree_of node) ≤ levels) }
{
    let Some(operator) = operator_of(tag) else {
        return Err(ReadFault::NotSpelled);
    };
    let left = read_boxed(alloc, levels, cursor)?;
    let right = read_boxed(alloc, levels, cursor)?;
    Ok(ExprNode::Binary(operator, left, right))
}

// Reads the members of a list behind their number.
#[cycle(read)]
#[tactic(auto, unfolding(zb_format::specs::Reading::counted_at, zb_format::specs::Layout::number))]
fn read_members(alloc: Global, levels: u32, cursor: &mut Cursor<'_>) -> Result<Vec<Expr>, ReadFault>
    requires { levels < 65 }
    ensures read { ReadsAs (λ members. members.items) (counted_at (expressions.tree_at levels) cursor.old) result cursor.new }
    ensures below { IfOk result (λ members. nesting_over (trees_of members.items) ≤ levels) }
{
    let count = <u32 as Format>::read(alloc, cursor)?;
    read_many(alloc, levels, count, cursor)
}

#[cycle(read)]
#[tactic(auto, using(crate::proofs::PieceLemmas::many, crate::proofs::MemberLemmas::members))]
fn read_many(
    alloc: Global,
    levels: u32,
    count: u32,
    cursor: &mut Cursor<'_>,
) -> Result<Vec<Expr>, ReadFault>
    requires { levels < 65 }
    ensures read { ReadsAs (λ members. members.items) (many_at (expressions.tree_at levels) count cursor.old) result cursor.new }
    ensures below { IfOk result (λ members. nesting_over (trees_of members.items) ≤ levels) }
{
    let mut members = Vec::new(alloc);
    for _ in 0..count {
        members.push(read_tree(alloc, levels, cursor)?)?;
    }
    Ok(members)
}

// The operator that a byte stands for.
fn operator_of(byte: u8) -> Option<Operator>
    ensures { result ≡ one_of expressions.operator expressions.each_operator byte }
{
    match byte {
        7 => Some(Operator::Add),
        8 => Some(Operator::Subtract),
        9 => Some(Operator::Multiply),
        10 => Some(Operator::Equal),
        11 => Some(Operator::NotEqual),
        12 => Some(Operator::Less),
        13 => Some(Operator::AtMost),
        14 => Some(Operator::Greater),
        15 => Some(Operator::AtLeast),
        16 => Some(Operator::And),
        17 => Some(Operator::Or),
        _ => None,
    }
}
