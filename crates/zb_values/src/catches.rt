// How a cell becomes active, and what opens for it: timers, and subscriptions to messages.
ghost use Rattle.std.specs.Prelude.{◌≡◌, ◌<◌, ◌++◌, [], List, Some, Ok, IfOk, OnOk, length, map, option_map, slice_get};
ghost use Rattle.std.specs.Result.{result_map_both};
ghost use Rattle.std.specs.Fmt.{signed_decimal};
ghost use Rattle.std.specs.Option.{option_copied, option_map_or};
ghost use Rattle.zb_process.specs.declared.model.Node.{Node};
ghost use Rattle.zb_expr.specs.Outcome.{Evaluates};
ghost use Rattle.zb_tokens.specs.Board.{node_with};
ghost use Rattle.zb_tokens.specs.Catches.{awaited, due_by, event_by, key_told, message_by, opened_at, opened_with, openings_at, openings_by, openings_in, openings_of, text_told, value_given};
ghost use Rattle.zb_tokens.specs.Incidents.{hindrance_of};
ghost use Rattle.zb_tokens.specs.Forced.{open_by};
ghost use Rattle.zb_values.specs.Opens.{items_kept, key_given, message_with, opened_over, text_given, timed_by, told_by};

use crate::awaited::{awaited, is_message_event, time_form, waits_once};
use crate::hindrances::{Hindrance, due_given, given, stop_by};
use crate::items::items_of;
use crate::mappings::{Side, variables_by};
use crate::seen::{Seen, SeenWith};
use std::alloc::{AllocError, Global};
use zb_base::{Key, List, Moment, Text, TryCopy, Value, Variable};
use zb_board::{Game, is_root};
use zb_duration::{TimeForm, due};
use zb_expr::{Code, Env, EvalFault, run};
use zb_graph::Graph;
use zb_process::Node;
use zb_tokens::{Awaited, AwaitedMessage, Cell, Move, Open, Opening};

/// How a cell becomes active, or the incident under this key that tells why it can't. Its inputs are evaluated, then the
/// collection of a body, whose items are copied, and then what opens at this moment, which is found as in `openings_at`. For each name it goes up the scopes, for one in a time
/// or a correlation key also through the inputs.
pub fn open_by(
    game: &Game,
    alloc: Global,
    moment: Moment,
    key: Key,
    cell: &Cell,
) -> Result<Move, AllocError>
    ensures { IfOk result (λ move. move ≡ open_by key cell.now (opened_with game.now moment cell.now)) }
{
    match opened_with(game, alloc, moment, cell)? {
        Ok(items) => {
            let key = cell.key;
            Ok(Move::Open(Open { key, items }))
        }
        Err(hindrance) => Ok(stop_by(key, cell, hindrance)),
    }
}

// The items that a cell keeps as it becomes active, where its inputs have values, and its timers and subscriptions can open
// too.
fn opened_with(
    game: &Game,
    alloc: Global,
    moment: Moment,
    cell: &Cell,
) -> Result<Result<List<i64>, Hindrance>, AllocError>
    ensures { IfOk result (λ opened. opened ≡ opened_with game.now moment cell.now) }
{
    match variables_by(game, alloc, cell, Side::Inputs)? {
        Ok(inputs) => opened_over(game, alloc, moment, cell, inputs),
        Err(hindrance) => Ok(Err(hindrance)),
    }
}

// The same, where these are its inputs. Collections, times and correlation keys see them laid over what it sees; none is
// set.
fn opened_over(
    game: &Game,
    alloc: Global,
    moment: Moment,
    cell: &Cell,
    inputs: List<Variable>,
) -> Result<Result<List<i64>, Hindrance>, AllocError>
    ensures { IfOk result (λ opened. opened ≡ opened_over inputs game.now moment cell.now) }
{
    let seen = SeenWith {
        variables: inputs.as_slice(),
        game,
        cell: cell.key,
    };
    match items_of(game, alloc, &seen, cell)? {
        Ok(items) => Ok(kept(openings_by(game, alloc, &seen, moment, cell)?, items)),
        Err(hindrance) => Ok(Err(hindrance)),
    }
}

// The items, where what opens can.
fn kept(
    openings: Result<List<Opening>, Hindrance>,
    items: List<i64>,
) -> Result<List<i64>, Hindrance>
    ensures { result ≡ items_kept openings items }
{
    match openings {
        Ok(_openings) => Ok(items),
        Err(hindrance) => Err(hindrance),
    }
}

/// What opens for a cell that has become active at this moment, in the order in which it does, or the fault of the first
/// time or correlation key that has one. At an event gateway it goes through all nodes of the model, and for each through
/// the flows into it; at any other node through the boundary events there. For each name in a time or a correlation key it
/// goes up the scopes; a model is found as by `Game::model`.
pub fn openings(
    game: &Game,
    alloc: Global,
    moment: Moment,
    cell: &Cell,
) -> Result<Result<List<Opening>, Hindrance>, AllocError>
    ensures { IfOk result (λ openings. openings ≡ openings_of game.now moment cell.now) }
{
    let seen = Seen {
        game,
        cell: cell.key,
    };
    openings_by(game, alloc, &seen, moment, cell)
}

/// What opens for the cell with a key, as `openings` tells it; nothing where it isn't there, or has a fault. The cell is
/// found as by `Game::cell`.
pub fn openings_at(
    game: &Game,
    alloc: Global,
    moment: Moment,
    cell: Key,
) -> Result<List<Opening>, AllocError>
    ensures { IfOk result (λ openings. openings ≡ openings_at game.now moment cell) }
{
    let Some(cell) = game.cell(cell) else {
        return Ok(List::empty(alloc));
    };
    match openings(game, alloc, moment, cell)? {
        Ok(openings) => Ok(openings),
        Err(_) => Ok(List::empty(alloc)),
    }
}

// What opens for a cell at this moment, where names have the values that they have in `env`, or why it can't.
fn openings_by<E: Env>(
    game: &Game,
    alloc: Global,
    env: &E,
    moment: Moment,
    cell: &Cell,
) -> Result<Result<List<Opening>, Hindrance>, AllocError>
    ensures { IfOk result (λ openings. openings ≡ openings_by (E.values env.now) game.now moment cell.now) }
{
    match game.model(cell.definition) {
        Some(model) => {
            if is_root(cell) {
                return Ok(Ok(List::empty(alloc)));
            }
            openings_for(alloc, env, moment, model, cell)
        }
        None => Ok(Ok(List::empty(alloc))),
    }
}

// The same in its model, for a cell that is no root.
fn openings_for<E: Env>(
    alloc: Global,
    env: &E,
    moment: Moment,
    model: &Graph,
    cell: &Cell,
) -> Result<Result<List<Opening>, Hindrance>, AllocError>
    ensures { IfOk result (λ openings. openings ≡ option_map_or (λ n. openings_in (E.values env.now) moment model.now (awaited model.now cell.now n)) (node_with model.now cell.now.node) (Ok [])) }
{
    match model.number(cell.node.as_str()) {
        Some(number) => {
            let numbers = awaited(alloc, model, cell, number)?;
            openings_in(alloc, env, moment, model, numbers.as_slice())
        }
        None => Ok(Ok(List::empty(alloc))),
    }
}

// What opens at the nodes with these numbers, in their order, or why the first one at which it can't doesn't.
fn openings_in<E: Env>(
    alloc: Global,
    env: &E,
    moment: Moment,
    model: &Graph,
    numbers: &[u32],
) -> Result<Result<List<Opening>, Hindrance>, AllocError>
    requires { (nodes : List Node) × (map (slice_get model.now.nodes) numbers.now ≡ map Some nodes) }
    ensures { (nodes : List Node) → map (slice_get model.now.nodes) numbers.now ≡ map Some nodes
        → IfOk result (λ openings. openings ≡ openings_in (E.values env.now) moment model.now nodes) }
{
    let mut openings = List::empty(alloc);
    for number in numbers {
        match event_by(alloc, env, moment, model, *number)? {
            Ok(event) => add(alloc, model.node(*number), event, &mut openings)?,
            Err(hindrance) => return Ok(Err(hindrance)),
        }
    }
    Ok(Ok(openings))
}

// Adds what opens at a node that has such an event.
fn add(
    alloc: Global,
    node: &Node,
    event: Option<Awaited>,
    openings: &mut List<Opening>,
) -> Result<(), AllocError>
    ensures { OnOk result (openings.new ≡ openings.old ++ opened_at node.now event) }
{
    match event {
        Some(event) => {
            let node = node.id.copy(alloc)?;
            openings.push(Opening { node, event })
        }
        None => Ok(()),
    }
}

// The event for which a cell of a model waits at the node with a number, if it has one, or why that can't be told.
fn event_by<E: Env>(
    alloc: Global,
    env: &E,
    moment: Moment,
    model: &Graph,
    number: u32,
) -> Result<Result<Option<Awaited>, Hindrance>, AllocError>
    requires { number < length model.now.nodes }
    ensures { (n : Node) → slice_get model.now.nodes number ≡ Some n
        → IfOk result (λ event. event ≡ event_by (E.values env.now) moment model.now n) }
{
    let kind = model.node(number).kind;
    if is_message_event(kind) {
        return message_by(alloc, env, model, number);
    }
    match time_form(kind) {
        Some(form) => time_by(alloc, env, moment, model, number, form),
        None => Ok(Ok(None)),
    }
}

// The time of this form for which a cell waits at the node with a number, or why it can't be told.
fn time_by<E: Env>(
    alloc: Global,
    env: &E,
    moment: Moment,
    model: &Graph,
    number: u32,
    form: TimeForm,
) -> Result<Result<Option<Awaited>, Hindrance>, AllocError>
    requires { number < length model.now.nodes }
    ensures { (n : Node) → slice_get model.now.nodes number ≡ Some n
        → IfOk result (λ event. event ≡ timed_by (due_by (E.values env.now) moment form n.expr)) }
{
    match due_by(alloc, env, moment, form, model.expr(number))? {
        Ok(due) => Ok(Ok(Some(Awaited::Time(due)))),
        Err(hindrance) => Ok(Err(hindrance)),
    }
}

// The message for which a cell of a model waits at the node with a number, or why its correlation key can't be told.
fn message_by<E: Env>(
    alloc: Global,
    env: &E,
    model: &Graph,
    number: u32,
) -> Result<Result<Option<Awaited>, Hindrance>, AllocError>
    requires { number < length model.now.nodes }
    ensures { (n : Node) → slice_get model.now.nodes number ≡ Some n
        → IfOk result (λ event. event ≡ told_by (message_by (E.values env.now) model.now n)) }
{
    match given(alloc, key_by(alloc, env, model.expr(number)))? {
        Ok(key) => {
            let message = message_with(alloc, model, model.node(number), key)?;
            Ok(Ok(Some(Awaited::Message(message))))
        }
        Err(hindrance) => Ok(Err(hindrance)),
    }
}

// The message with this correlation key for which a cell of a model waits at a node.
fn message_with(
    alloc: Global,
    model: &Graph,
    node: &Node,
    correlation_key: Text,
) -> Result<AwaitedMessage, AllocError>
    ensures { IfOk result (λ message. message ≡ message_with model.now node.now correlation_key) }
{
    Ok(AwaitedMessage {
        name: node.name.copy(alloc)?,
        correlation_key,
        process: model.model().process.copy(alloc)?,
        cancel: waits_once(node),
    })
}

// When a timer is due that opens at this moment, or why that can't be told.
fn due_by<E: Env>(
    alloc: Global,
    env: &E,
    moment: Moment,
    form: TimeForm,
    time: Option<&Code>,
) -> Result<Result<Moment, Hindrance>, AllocError>
    ensures { IfOk result (λ due. due ≡ due_by (E.values env.now) moment form (option_copied time.entry)) }
{
    match given(alloc, text_by(alloc, env, time))? {
        Ok(text) => due_given(alloc, due(form, text.as_str(), moment)),
        Err(hindrance) => Ok(Err(hindrance)),
    }
}

// The text that an expression gives.
fn text_by<E: Env>(alloc: Global, env: &E, time: Option<&Code>) -> Result<Text, EvalFault>
    ensures { Evaluates result (text_given (E.values env.now) (option_copied time.entry)) }
{
    match value_by(alloc, env, time) {
        Ok(value) => text_told(value),
        Err(fault) => Err(fault),
    }
}

// The value of an expression. One that is missing has none, as a name without a value has none.
fn value_by<E: Env>(alloc: Global, env: &E, expr: Option<&Code>) -> Result<Value, EvalFault>
    ensures { Evaluates result (value_given (E.values env.now) (option_copied expr.entry)) }
{
    match expr {
        Some(code) => run(alloc, code, env),
        None => Err(EvalFault::Unknown),
    }
}

// The text that a value is; another value is of the wrong kind.
fn text_told(value: Value) -> Result<Text, EvalFault>
    ensures { Evaluates result (text_told value) }
{
    match value {
        Value::Text(text) => Ok(text),
        _ => Err(EvalFault::Kind),
    }
}

// The correlation key that an expression gives.
fn key_by<E: Env>(alloc: Global, env: &E, key: Option<&Code>) -> Result<Text, EvalFault>
    ensures { Evaluates result (key_given (E.values env.now) (option_copied key.entry)) }
{
    match value_by(alloc, env, key) {
        Ok(value) => key_told(alloc, value),
        Err(fault) => Err(fault),
    }
}

// The correlation key that a value is: a text, or a whole number in decimal digits.
fn key_told(alloc: Global, value: Value) -> Result<Text, EvalFault>
    ensures { Evaluates result (key_told value) }
{
    match value {
        Value::Text(text) => Ok(text),
        Value::Int(number) => Ok(digits_of(alloc, number)?),
        _ => Err(EvalFault::Kind),
    }
}

// A whole number in decimal digits.
fn digits_of(alloc: Global, number: i64) -> Result<Text, AllocError>
    ensures { IfOk result (λ text. text ≡ signed_decimal number) }
{
    let mut digits = String::from_str(alloc, "")?;
    digits.write(number)?;
    Text::of(alloc, digits.as_str())
}
