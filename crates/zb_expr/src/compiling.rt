ghost use Rattle.std.specs.Prelude.{◌≡◌, ◌∷◌, [], IfOk, OnOk};
ghost use Rattle.zb_process.specs.ExprView.{tree_of};
ghost use Rattle.zb_process.specs.Tree.{Members, trees_of};
ghost use Rattle.zb_expr.specs.Postfix.{WritesMore};

use crate::code::Code;
use crate::instruction::Instruction;
use std::alloc::{AllocError, Global};
use zb_base::{List, Text, TryCopy, Value};
use zb_process::{Expr, ExprNode};

/// The postfix code of an expression. It takes a step for each expression in it, and for each byte of its texts.
pub fn compile(alloc: Global, expr: &Expr) -> Result<Code, AllocError>
    ensures { IfOk result (λ code. code ≡ expr.now) }
{
    let mut code = List::empty(alloc);
    put_expr(alloc, expr, &mut code)?;
    Ok(Code::new(code))
}

// Appends the instructions of an expression: those of its operands, left to right, then its own.
#[cycle(compile)]
fn put_expr(alloc: Global, expr: &Expr, code: &mut List<Instruction>) -> Result<(), AllocError>
    ensures { OnOk result (WritesMore code.old (expr.now ∷ []) code.new) }
{
    put_node(alloc, &expr.node, code)
}

#[cycle(compile)]
fn put_node(alloc: Global, node: &ExprNode, code: &mut List<Instruction>) -> Result<(), AllocError>
    ensures { OnOk result (WritesMore code.old (tree_of node.now ∷ []) code.new) }
{
    match node {
        ExprNode::Int(number) => code.push(Instruction::Constant(Value::Int(*number))),
        ExprNode::Bool(flag) => code.push(Instruction::Constant(Value::Bool(*flag))),
        ExprNode::Text(text) => {
            let text = Value::Text(text.copy(alloc)?);
            code.push(Instruction::Constant(text))
        }
        ExprNode::Name(name) => {
            let name = name.copy(alloc)?;
            code.push(Instruction::Name(name))
        }
        ExprNode::List(members) => put_list(alloc, members.as_slice(), code),
        ExprNode::Not(operand) => {
            put_expr(alloc, operand, code)?;
            code.push(Instruction::Not)
        }
        ExprNode::Minus(operand) => {
            put_expr(alloc, operand, code)?;
            code.push(Instruction::Minus)
        }
        ExprNode::Binary(operator, left, right) => {
            put_expr(alloc, left, code)?;
            put_expr(alloc, right, code)?;
            code.push(Instruction::Binary(*operator))
        }
    }
}

#[cycle(compile)]
fn put_list(alloc: Global, members: &[Expr], code: &mut List<Instruction>) -> Result<(), AllocError>
    ensures { OnOk result (WritesMore code.old (Members (trees_of members.now) ∷ []) code.new) }
{
    put_members(alloc, members, code)?;
    code.push(Instruction::List(members.len()))
}

#[cycle(compile)]
#[tactic(auto, using(crate::proofs::CodeLemmas::members))]
fn put_members(
    alloc: Global,
    members: &[Expr],
    code: &mut List<Instruction>,
) -> Result<(), AllocError>
    ensures { OnOk result (WritesMore code.old members.now code.new) }
{
    for member in members {
        put_expr(alloc, member, code)?;
    }
    Ok(())
}
