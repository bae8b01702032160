// The items of bodies, and the variables of their runs.
ghost use Rattle.std.specs.Prelude.{◌≡◌, ◌<◌, Some, IfOk, length, option_map, pos, slice_get};
ghost use Rattle.std.specs.Option.{option_copied};
ghost use Rattle.zb_process.specs.declared.model.Node.{Node};
ghost use Rattle.zb_expr.specs.Outcome.{Evaluates};
ghost use Rattle.zb_tokens.specs.Bodies.{items_told, last_item, multi_at, multi_of, run_variables, run_variables_at};
ghost use Rattle.zb_tokens.specs.Catches.{items_of};
ghost use Rattle.zb_values.specs.Opens.{items_given};

use crate::hindrances::{Hindrance, given};
use std::alloc::{AllocError, Global};
use zb_base::{Key, List, Text, TryCopy, Value, Variable};
use zb_board::{Game, is_body, is_inner, multi_at};
use zb_expr::{Code, Env, EvalFault, run};
use zb_faults::is_activity;
use zb_graph::Graph;
use zb_tokens::Cell;

/// The items that a cell keeps as it becomes active, where names have the values that they have in `env`, or why it has
/// none: those of its collection where it is a body. They are copied.
pub fn items_of<E: Env>(
    game: &Game,
    alloc: Global,
    env: &E,
    cell: &Cell,
) -> Result<Result<List<i64>, Hindrance>, AllocError>
    ensures { IfOk result (λ items. items ≡ items_of (E.values env.now) game.now cell.now) }
{
    if !is_body(cell) {
        return Ok(Ok(List::empty(alloc)));
    }
    let Some(model) = game.model(cell.definition) else {
        return Ok(Ok(List::empty(alloc)));
    };
    match collection_at(model, cell.node.as_str()) {
        Some(code) => given(alloc, items_by(alloc, env, code)),
        None => Ok(Ok(List::empty(alloc))),
    }
}

/// The variables of the run of a body with a key, as it begins: which one it is, and its item, under the name that its
/// activity gives it. A cell that is none has none. The cell and its body are found as by `Game::cell`.
pub fn run_variables_at(game: &Game, alloc: Global, cell: Key) -> Result<List<Variable>, AllocError>
    ensures { IfOk result (λ variables. variables ≡ run_variables_at game.now cell) }
{
    let Some(cell) = game.cell(cell) else {
        return Ok(List::empty(alloc));
    };
    if !is_inner(cell) {
        return Ok(List::empty(alloc));
    }
    let Some(body) = game.cell(cell.scope) else {
        return Ok(List::empty(alloc));
    };
    match game.model(body.definition) {
        Some(model) => run_variables(alloc, model, body),
        None => Ok(List::empty(alloc)),
    }
}

// The variables of the run for the item of a body that was taken last.
fn run_variables(alloc: Global, model: &Graph, body: &Cell) -> Result<List<Variable>, AllocError>
    ensures { IfOk result (λ variables. variables ≡ run_variables model.now body.now) }
{
    let mut variables = List::empty(alloc);
    let Some(multi) = multi_at(model, body.node.as_str()) else {
        return Ok(variables);
    };
    let Some(item) = last_item(body) else {
        return Ok(variables);
    };
    let name = Text::of(alloc, "loopCounter")?;
    let value = Value::Int(counter(body.taken)?);
    variables.push(Variable { name, value })?;
    let name = multi.element.copy(alloc)?;
    let value = Value::Int(item);
    variables.push(Variable { name, value })?;
    Ok(variables)
}

// The item of a body that was taken last.
fn last_item(body: &Cell) -> Option<i64>
    ensures { result ≡ last_item body.now }
{
    let place = usize::try_from(body.taken.saturating_sub(1)).ok()?;
    body.items.as_slice().get(place).copied()
}

// A count as a whole number; one that is none counts as want of memory.
fn counter(taken: u64) -> Result<i64, AllocError>
    ensures { IfOk result (λ number. number ≡ pos taken) }
{
    match i64::try_from(taken) {
        Ok(number) => Ok(number),
        Err(_) => Err(AllocError),
    }
}

// The collection of an activity with several instances, by the id of its node.
fn collection_at<'a>(model: &'a Graph, id: &str) -> Option<&'a Code>
    ensures { option_copied result ≡ option_map (λ x. x.collection) (multi_at model.now id.now) }
{
    match model.number(id) {
        Some(number) => collection_of(model, number),
        None => None,
    }
}

// The same by the number of its node.
fn collection_of(model: &Graph, number: u32) -> Option<&Code>
    requires { number < length model.now.nodes }
    ensures { (n : Node) → slice_get model.now.nodes number ≡ Some n → option_copied result ≡ option_map (λ x. x.collection) (multi_of n) }
{
    if is_activity(model.node(number).kind) {
        model.collection(number)
    } else {
        None
    }
}

// The items that an expression gives.
fn items_by<E: Env>(alloc: Global, env: &E, code: &Code) -> Result<List<i64>, EvalFault>
    ensures { Evaluates result (items_given (E.values env.now) code.now) }
{
    match run(alloc, code, env) {
        Ok(value) => items_told(value),
        Err(fault) => Err(fault),
    }
}

// The items that a value is; another value is of the wrong kind.
fn items_told(value: Value) -> Result<List<i64>, EvalFault>
    ensures { Evaluates result (items_told value) }
{
    match value {
        Value::List(items) => Ok(items),
        _ => Err(EvalFault::Kind),
    }
}
