ghost use Rattle.std.specs.Prelude.{◌≡◌, [], Ok, Some, IfOk, IfErr};
ghost use Rattle.zb_process.specs.Expr.{value_of, values_of, whole_numbers, known};
ghost use Rattle.zb_process.specs.Tree.{trees_of};
ghost use Rattle.zb_expr.specs.Instructions.{value_over};
ghost use Rattle.zb_expr.specs.Outcome.{IsTold, Evaluates, EvaluatesAs};
ghost use Rattle.zb_expr.specs.Postfix.{trees_behind};

use crate::code::Code;
use crate::instruction::Instruction;
use crate::operand::Operand;
use crate::operators::{apply, negative_of, opposite_of};
use crate::{Env, EvalFault};
use std::alloc::Global;
use zb_base::{List, Text, Value};

/// The value of the expression that was compiled, where names have the values that they have in `env`.
/// All of its operands are evaluated, left to right, and the first fault is told.
/// It takes a step for each instruction, for each byte of a text and for each item of a list.
pub fn run<E: Env>(alloc: Global, code: &Code, env: &E) -> Result<Value, EvalFault>
    ensures value { IfOk result (λ value. value_of (E.values env.now) code.now ≡ Ok value) }
    ensures fault { IfErr result (λ fault. IsTold fault (value_of (E.values env.now) code.now)) }
{
    let mut stack = run_all(alloc, code.instructions(), env)?;
    match stack.pop() {
        Some(operand) => Ok(operand.into_value(alloc)?),
        None => unreachable!(),
    }
}

// The values that instructions leave on a stack that was empty.
fn run_all<'a, E: Env>(
    alloc: Global,
    instructions: &'a [Instruction],
    env: &'a E,
) -> Result<Vec<Operand<'a>>, EvalFault>
    ensures { (trees : _) → trees_behind [] instructions.now ≡ Some trees → EvaluatesAs (λ stack. stack.items) result (values_of (E.values env.now) (trees_of trees)) }
{
    let mut stack = Vec::new(alloc);
    for instruction in instructions {
        let below = stack.len().saturating_sub(instruction.arity());
        let value = run_one(alloc, instruction, &stack[below..], env)?;
        stack.truncate(below);
        stack.push(value)?;
    }
    Ok(stack)
}

// The value of an instruction over those of its operands.
fn run_one<'a, E: Env>(
    alloc: Global,
    instruction: &'a Instruction,
    operands: &[Operand<'a>],
    env: &'a E,
) -> Result<Operand<'a>, EvalFault>
    ensures { Evaluates result (value_over (E.values env.now) instruction.now operands.now) }
{
    match instruction {
        Instruction::Constant(value) => Ok(Operand::lent(value)),
        Instruction::Name(name) => look_up(name, env),
        Instruction::List(_) => Ok(Operand::made(Value::List(numbers_of(alloc, operands)?))),
        Instruction::Not => match operands {
            [operand] => Ok(Operand::made(opposite_of(operand.value())?)),
            _ => Err(EvalFault::Kind),
        },
        Instruction::Minus => match operands {
            [operand] => Ok(Operand::made(negative_of(operand.value())?)),
            _ => Err(EvalFault::Kind),
        },
        Instruction::Binary(operator) => match operands {
            [left, right] => Ok(Operand::made(apply(*operator, left.value(), right.value())?)),
            _ => Err(EvalFault::Kind),
        },
    }
}

// The value that a name has.
fn look_up<'a, E: Env>(name: &Text, env: &'a E) -> Result<Operand<'a>, EvalFault>
    ensures { Evaluates result (known (E.values env.now name.now)) }
{
    match env.look(name.as_str()) {
        Some(value) => Ok(Operand::lent(value)),
        None => Err(EvalFault::Unknown),
    }
}

// The whole numbers that all of these operands are.
fn numbers_of(alloc: Global, operands: &[Operand<'_>]) -> Result<List<i64>, EvalFault>
    ensures { Evaluates result (whole_numbers operands.now) }
{
    let mut numbers = List::with_capacity(alloc, operands.len())?;
    for operand in operands {
        let Value::Int(number) = operand.value() else {
            return Err(EvalFault::Kind);
        };
        numbers.push(*number)?;
    }
    Ok(numbers)
}
