// The conditions of flows, as a cell sees the names in them.
ghost use Rattle.std.specs.Prelude.{◌≡◌, ◌<◌, Some, length, slice_get};
ghost use Rattle.zb_process.specs.declared.model.Flow.{Flow};
ghost use Rattle.zb_expr.specs.Outcome.{Evaluates};
ghost use Rattle.zb_tokens.specs.Choice.{truth_at, truth_of};
ghost use Rattle.zb_tokens.specs.Names.{value_seen};
ghost use Rattle.zb_values.specs.Exits.{truth_told};

use crate::seen::value_at;
use std::alloc::Global;
use zb_base::{Key, Value};
use zb_board::Game;
use zb_expr::{Code, EvalFault};
use zb_graph::Graph;

/// The truth of the condition of the flow with a number, as a cell sees its names; true where it has none.
pub fn truth_at(
    alloc: Global,
    game: &Game,
    cell: Key,
    model: &Graph,
    number: u32,
) -> Result<bool, EvalFault>
    requires { number < length model.now.flows }
    ensures { (flow : Flow) → slice_get model.now.flows number ≡ Some flow → Evaluates result (truth_at (value_seen game.now cell) flow) }
{
    match model.condition(number) {
        Some(code) => truth_by(alloc, game, cell, code),
        None => Ok(true),
    }
}

// The truth of a condition, as a cell sees its names.
fn truth_by(alloc: Global, game: &Game, cell: Key, code: &Code) -> Result<bool, EvalFault>
    ensures { Evaluates result (truth_told (value_seen game.now cell) code.now) }
{
    match value_at(alloc, game, cell, code) {
        Ok(value) => truth_of(&value),
        Err(fault) => Err(fault),
    }
}

// The truth that a value is; another value is of the wrong kind.
fn truth_of(value: &Value) -> Result<bool, EvalFault>
    ensures { Evaluates result (truth_of value.now) }
{
    match value {
        Value::Bool(truth) => Ok(*truth),
        _ => Err(EvalFault::Kind),
    }
}
