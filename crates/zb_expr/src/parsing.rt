ghost use Rattle.std.specs.Prelude.{◌≡◌, ◌<◌, ◌≤◌, ◌+◌, drop, length, IfOk};
ghost use Rattle.zb_process.specs.ExprView.{tree_of};
ghost use Rattle.zb_process.specs.Tree.{nesting};
ghost use Rattle.zb_expr.specs.Grammar.{level_of, left_level, leaf_tree};
ghost use Rattle.zb_expr.specs.Reading.{ComesAs, Parses, tree_read, IsWithin, AreWithin, part_at, part_with, operand_at, first_token, chain_at, closed_at, negated_at, all_members_at, more_members_at, operator_on, operator_in, part_made, listed_of, part_alone, part_grouped, part_minus, part_joined, with_member};

use crate::ExprFault;
use crate::part::{Listed, Part};
use crate::token::{Leaf, Token};
use crate::tokens::Tokens;
use std::alloc::{AllocError, Global};
use zb_base::{List, TryCopy};
use zb_process::{Expr, ExprNode, Operator};

// How many levels an expression may have: 64 stand around a leaf, and the leaf.
const LEVELS: u32 = 65;

// How tightly the loosest operator binds, a sign, and what needs no parentheses.
const LOOSEST: u32 = 1;

const SIGN: u32 = 6;

const MOST: u32 = 7;

/// The expression that these tokens are. It takes a step for each token.
pub fn expr_of_tokens(alloc: Global, tokens: &[Token]) -> Result<Expr, ExprFault>
    ensures { ComesAs (λ expr. expr) (tree_read tokens.now) result }
{
    let mut left = Tokens::new(tokens);
    let part = read_part(alloc, LEVELS, LOOSEST, &mut left)?;
    if left.is_empty() {
        Ok(part.expr)
    } else {
        Err(ExprFault::NotExpr)
    }
}

// Reads a part that binds so tightly at least, and has less than so many around a leaf.
#[cycle(parse)]
#[tactic(auto, unfolding(crate::specs::Reading::part_at))]
fn read_part(
    alloc: Global,
    levels: u32,
    least: u32,
    tokens: &mut Tokens<'_>,
) -> Result<Part, ExprFault>
    requires { levels ≤ 65 }
    ensures read { Parses (part_at levels least tokens.old) result tokens.new }
    ensures within { IfOk result (IsWithin levels) }
{
    if levels == 0 {
        return Err(ExprFault::NotExpr);
    }
    read_within(alloc, levels - 1, least, tokens)
}

// Reads a part that has at most so many around a leaf.
#[cycle(parse)]
fn read_within(
    alloc: Global,
    room: u32,
    least: u32,
    tokens: &mut Tokens<'_>,
) -> Result<Part, ExprFault>
    requires { room < 65 }
    ensures read { Parses (part_with (part_at room) room least tokens.old) result tokens.new }
    ensures within { IfOk result (IsWithin (room + 1)) }
{
    let first = read_first(alloc, room, tokens)?;
    read_chain(alloc, room, least, first, tokens)
}

// Reads a part that is none of an operator between two.
#[cycle(parse)]
fn read_first(alloc: Global, room: u32, tokens: &mut Tokens<'_>) -> Result<Part, ExprFault>
    requires { room < 65 }
    ensures read { Parses (operand_at (part_at room) (first_token tokens.old) (drop 1 tokens.old)) result tokens.new }
    ensures within { IfOk result (IsWithin (room + 1)) }
{
    match tokens.take_next() {
        Some(Token::Leaf(leaf)) => Ok(leaf_part(alloc, leaf)?),
        Some(Token::Open) => read_group(alloc, room, tokens),
        Some(Token::Not) => read_negation(alloc, room, tokens),
        Some(Token::Operator(Operator::Subtract)) => read_minus(alloc, room, tokens),
        Some(Token::OpenList) => read_list(alloc, room, tokens),
        _ => Err(ExprFault::NotExpr),
    }
}

// A part in parentheses, behind their beginning.
#[cycle(parse)]
fn read_group(alloc: Global, room: u32, tokens: &mut Tokens<'_>) -> Result<Part, ExprFault>
    requires { room < 65 }
    ensures read { Parses (part_made part_grouped (closed_at (part_at room) tokens.old)) result tokens.new }
    ensures within { IfOk result (IsWithin (room + 1)) }
{
    let part = read_closed(alloc, room, tokens)?;
    Ok(Part {
        expr: part.expr,
        around: part.around + 1,
        level: MOST,
    })
}

// Reads the part in parentheses behind a not.
#[cycle(parse)]
fn read_negation(alloc: Global, room: u32, tokens: &mut Tokens<'_>) -> Result<Part, ExprFault>
    requires { room < 65 }
    ensures read { Parses (negated_at (part_at room) (first_token tokens.old) (drop 1 tokens.old)) result tokens.new }
    ensures within { IfOk result (IsWithin (room + 1)) }
{
    let Some(Token::Open) = tokens.take_next() else {
        return Err(ExprFault::NotExpr);
    };
    let part = read_closed(alloc, room, tokens)?;
    Ok(Part {
        expr: Expr {
            node: ExprNode::Not(Box::new(alloc, part.expr)?),
        },
        around: part.around + 1,
        level: MOST,
    })
}

// Reads the part behind a sign.
#[cycle(parse)]
fn read_minus(alloc: Global, room: u32, tokens: &mut Tokens<'_>) -> Result<Part, ExprFault>
    requires { room < 65 }
    ensures read { Parses (part_made part_minus (part_at room 6 tokens.old)) result tokens.new }
    ensures within { IfOk result (IsWithin (room + 1)) }
{
    let part = read_part(alloc, room, SIGN, tokens)?;
    Ok(Part {
        expr: Expr {
            node: ExprNode::Minus(Box::new(alloc, part.expr)?),
        },
        around: part.around + 1,
        level: SIGN,
    })
}

// Reads a part and the end of parentheses behind it.
#[cycle(parse)]
fn read_closed(alloc: Global, room: u32, tokens: &mut Tokens<'_>) -> Result<Part, ExprFault>
    requires { room < 65 }
    ensures read { Parses (closed_at (part_at room) tokens.old) result tokens.new }
    ensures within { IfOk result (IsWithin room) }
{
    let part = read_part(alloc, room, 1, tokens)?;
    match tokens.take_next() {
        Some(Token::Close) => Ok(part),
        _ => Err(ExprFault::NotExpr),
    }
}

// Reads the members of a list behind its beginning.
#[cycle(parse)]
fn read_list(alloc: Global, room: u32, tokens: &mut Tokens<'_>) -> Result<Part, ExprFault>
    requires { room < 65 }
    ensures read { Parses (listed_of (all_members_at (part_at room) tokens.old)) result tokens.new }
    ensures within { IfOk result (IsWithin (room + 1)) }
{
    let listed = read_all_members(alloc, room, tokens)?;
    Ok(Part {
        expr: Expr {
            node: ExprNode::List(listed.members.into_vec()),
        },
        around: listed.around,
        level: MOST,
    })
}

#[cycle(parse)]
fn read_all_members(alloc: Global, room: u32, tokens: &mut Tokens<'_>) -> Result<Listed, ExprFault>
    requires { room < 65 }
    ensures read { Parses (all_members_at (part_at room) tokens.old) result tokens.new }
    ensures within { IfOk result (AreWithin (room + 1)) }
{
    let none = Listed {
        members: List::empty(alloc),
        around: 0,
    };
    if tokens.is_at_list_end() {
        let _end = tokens.take_next();
        return Ok(none);
    }
    let first = read_part(alloc, room, 1, tokens)?;
    let listed = added(none, first)?;
    read_members(alloc, room, listed, tokens)
}

// Reads further members, up to the end of their list.
#[cycle(parse)]
fn read_members(
    alloc: Global,
    room: u32,
    first: Listed,
    tokens: &mut Tokens<'_>,
) -> Result<Listed, ExprFault>
    requires few { room < 65 }
    requires within { AreWithin (room + 1) first }
    ensures read { Parses (more_members_at (part_at room) (length tokens.old) first tokens.old) result tokens.new }
    ensures within { IfOk result (AreWithin (room + 1)) }
{
    let most = tokens.len();
    let mut listed = first;
    for _ in 0..most {
        match tokens.take_next() {
            Some(Token::CloseList) => return Ok(listed),
            Some(Token::Comma) => {
                let member = read_part(alloc, room, 1, tokens)?;
                listed = added(listed, member)?;
            }
            _ => return Err(ExprFault::NotExpr),
        }
    }
    Err(ExprFault::NotExpr)
}

// Reads the operators that go on with a part, each with its right operand.
#[cycle(parse)]
fn read_chain(
    alloc: Global,
    room: u32,
    least: u32,
    first: Part,
    tokens: &mut Tokens<'_>,
) -> Result<Part, ExprFault>
    requires few { room < 65 }
    requires within { IsWithin (room + 1) first }
    ensures read { Parses (chain_at (part_at room) room room least first tokens.old) result tokens.new }
    ensures within { IfOk result (IsWithin (room + 1)) }
{
    let mut left = first;
    for _ in 0..room {
        let Some(operator) = operator_behind(least, left.level, tokens) else {
            return Ok(left);
        };
        if left.around >= room {
            return Err(ExprFault::NotExpr);
        }
        let _operator = tokens.take_next();
        let right = read_part(alloc, room, tightness(operator) + 1, tokens)?;
        left = joined(alloc, operator, left, right)?;
    }
    match operator_behind(least, left.level, tokens) {
        None => Ok(left),
        Some(_) => Err(ExprFault::NotExpr),
    }
}

// The operator that goes on with a part of this level.
fn operator_behind(least: u32, level: u32, tokens: &Tokens<'_>) -> Option<Operator>
    ensures { result ≡ operator_on least level (operator_in (first_token tokens.now)) }
{
    let operator = tokens.operator()?;
    if tightness(operator) >= least && level >= left_tightness(operator) {
        Some(operator)
    } else {
        None
    }
}

// How tightly an operator binds.
#[tactic(auto, unfolding(crate::specs::Grammar::level_of))]
fn tightness(operator: Operator) -> u32
    ensures value { result ≡ level_of operator }
    ensures few { result ≤ 5 }
{
    match operator {
        Operator::Or => 1,
        Operator::And => 2,
        Operator::Add | Operator::Subtract => 4,
        Operator::Multiply => 5,
        _ => 3,
    }
}

// How tightly the left operand of an operator binds at least.
#[tactic(auto, unfolding(crate::specs::Grammar::left_level))]
fn left_tightness(operator: Operator) -> u32
    ensures { result ≡ left_level operator }
{
    match operator {
        Operator::Or => 1,
        Operator::And => 2,
        Operator::Multiply => 5,
        _ => 4,
    }
}

// The part of a leaf.
fn leaf_part(alloc: Global, leaf: &Leaf) -> Result<Part, AllocError>
    ensures made { IfOk result (λ part. part ≡ part_alone leaf.now) }
    ensures within { IfOk result (IsWithin 1) }
{
    let node = leaf_node(alloc, leaf)?;
    Ok(Part {
        expr: Expr { node },
        around: 0,
        level: MOST,
    })
}

fn leaf_node(alloc: Global, leaf: &Leaf) -> Result<ExprNode, AllocError>
    ensures made { IfOk result (λ node. tree_of node ≡ leaf_tree leaf.now) }
    ensures flat { IfOk result (λ node. nesting (tree_of node) ≡ 0) }
{
    match leaf {
        Leaf::Int(number) => Ok(ExprNode::Int(*number)),
        Leaf::Bool(flag) => Ok(ExprNode::Bool(*flag)),
        Leaf::Text(text) => Ok(ExprNode::Text(text.copy(alloc)?)),
        Leaf::Name(name) => Ok(ExprNode::Name(name.copy(alloc)?)),
    }
}

// The part of an operator between two.
fn joined(alloc: Global, operator: Operator, left: Part, right: Part) -> Result<Part, AllocError>
    requires left { IsWithin 64 left }
    requires right { IsWithin 64 right }
    ensures { IfOk result (λ part. part ≡ part_joined operator left right) }
{
    let around = left.around.max(right.around) + 1;
    let node = ExprNode::Binary(
        operator,
        Box::new(alloc, left.expr)?,
        Box::new(alloc, right.expr)?,
    );
    Ok(Part {
        expr: Expr { node },
        around,
        level: tightness(operator),
    })
}

// The members with one more.
fn added(listed: Listed, member: Part) -> Result<Listed, AllocError>
    requires { member.around < 64 }
    ensures { IfOk result (λ more. more ≡ with_member listed member) }
{
    let mut members = listed.members;
    members.push(member.expr)?;
    Ok(Listed {
        members,
        around: listed.around.max(member.around + 1),
    })
}
