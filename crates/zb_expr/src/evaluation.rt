ghost use Rattle.std.specs.Prelude.{◌≡◌, Ok, IfOk, IfErr};
ghost use Rattle.zb_process.specs.Expr.{value_of};
ghost use Rattle.zb_expr.specs.Outcome.{IsTold};

use crate::compiling::compile;
use crate::running::run;
use crate::{Env, EvalFault};
use std::alloc::Global;
use zb_base::Value;
use zb_process::Expr;

/// The value of an expression, where names have the values that they have in `env`. It is compiled, and run once.
/// All of its operands are evaluated, left to right, and the first fault is told.
/// It takes a step for each expression in it, for each byte of a text and for each item of a list.
pub fn eval<E: Env>(alloc: Global, expr: &Expr, env: &E) -> Result<Value, EvalFault>
    ensures value { IfOk result (λ value. value_of (E.values env.now) expr.now ≡ Ok value) }
    ensures fault { IfErr result (λ fault. IsTold fault (value_of (E.values env.now) expr.now)) }
{
    let code = compile(alloc, expr)?;
    run(alloc, &code, env)
}
