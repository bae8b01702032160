// What a cell takes in as it becomes active, and gives out as it completes: the inputs and outputs of its node.
ghost use Rattle.std.specs.Prelude.{◌≡◌, ◌<◌, ◌++◌, ◌∷◌, [], Some, IfOk, OnOk, length, option_map, slice_get};
ghost use Rattle.std.specs.Option.{option_map_or};
ghost use Rattle.std.specs.Result.{result_unwrap_or};
ghost use Rattle.zb_expr.specs.Outcome.{Evaluates};
ghost use Rattle.zb_tokens.specs.declared.board.Move.TheVariants as moves;
ghost use Rattle.zb_tokens.specs.declared.board.Leave.{Leave};
ghost use Rattle.zb_tokens.specs.declared.board.Open.{Open};
ghost use Rattle.zb_tokens.specs.Board.{node_with};
ghost use Rattle.zb_tokens.specs.Names.{value_seen};
ghost use Rattle.zb_tokens.specs.Mappings.{assignments_of, mapped, own_node, variables_by};
ghost use Rattle.zb_tokens.specs.MoveLeave.{completion_of};
ghost use Rattle.zb_tokens.specs.Forced.{leave_by};
ghost use Rattle.zb_values.specs.Mapped.{mappings_at, mappings_on};

use crate::exit::leave_by;
use crate::hindrances::{Hindrance, given, stop_by};
use crate::seen::value_at;
use std::alloc::{AllocError, Global};
use zb_base::{Key, List, TryCopy, Value, Variable};
use zb_board::{Game, is_body, is_root};
use zb_expr::{Code, EvalFault};
use zb_graph::Graph;
use zb_process::Mapping;
use zb_tokens::{Assignments, Cell, Move};

/// Which mappings of a node are meant.
#[derive(Clone, Copy)]
pub enum Side {
    Inputs,
    Outputs,
}

/// How a cell that has completed is left, or the incident under this key that tells why it can't be: its outputs come
/// first, and at an exclusive gateway the conditions of the flows, up to the one that decides. For each name in them it
/// goes up the scopes.
pub fn complete_by(game: &Game, alloc: Global, key: Key, cell: &Cell) -> Result<Move, AllocError>
    ensures { IfOk result (λ move. move ≡ leave_by key cell.now (completion_of game.now cell.now)) }
{
    match variables_by(game, alloc, cell, Side::Outputs)? {
        Ok(_outputs) => leave_by(game, alloc, key, cell),
        Err(hindrance) => Ok(stop_by(key, cell, hindrance)),
    }
}

/// The variables that are set where a move is made: the inputs of a cell that becomes active, and the outputs of
/// one that has completed. All of them are evaluated, and none is set. It costs what `open_by` or `complete_by`
/// does, without timers and conditions; the cell is found as by `Game::cell`.
pub fn assignments_of(
    game: &Game,
    alloc: Global,
    made: &Move,
) -> Result<Option<Assignments>, AllocError>
    ensures { IfOk result (λ assignments. assignments ≡ assignments_of game.now made.now) }
{
    match made {
        Move::Open(open) => inputs_at(game, alloc, open.key),
        Move::Leave(leave) => outputs_at(game, alloc, leave.key),
        _ => Ok(None),
    }
}

// The inputs of a cell, which are set in it.
fn inputs_at(game: &Game, alloc: Global, key: Key) -> Result<Option<Assignments>, AllocError>
    ensures { (opening : Open) → opening.key ≡ key → IfOk result (λ assignments. assignments ≡ assignments_of game.now (moves.Open opening)) }
{
    let Some(cell) = game.cell(key) else {
        return Ok(None);
    };
    let variables = variables_of(game, alloc, cell, Side::Inputs)?;
    Ok(Some(Assignments {
        scope: cell.key,
        local: true,
        variables,
    }))
}

// The outputs of a cell, which are handed up from the scope around it.
fn outputs_at(game: &Game, alloc: Global, key: Key) -> Result<Option<Assignments>, AllocError>
    ensures { (leave : Leave) → leave.key ≡ key → IfOk result (λ assignments. assignments ≡ assignments_of game.now (moves.Leave leave)) }
{
    let Some(cell) = game.cell(key) else {
        return Ok(None);
    };
    let variables = variables_of(game, alloc, cell, Side::Outputs)?;
    Ok(Some(Assignments {
        scope: cell.scope,
        local: false,
        variables,
    }))
}

// The variables that the mappings of a cell's node make; none where one of them has a fault.
fn variables_of(
    game: &Game,
    alloc: Global,
    cell: &Cell,
    side: Side,
) -> Result<List<Variable>, AllocError>
    ensures { IfOk result (λ variables. variables ≡ result_unwrap_or (variables_by game.now cell.now (option_map_or (mappings_on side) (own_node game.now cell.now) [])) []) }
{
    match variables_by(game, alloc, cell, side)? {
        Ok(variables) => Ok(variables),
        Err(_) => Ok(List::empty(alloc)),
    }
}

/// The variables that the mappings of a cell's node make, or why the cell can't go on with them.
pub fn variables_by(
    game: &Game,
    alloc: Global,
    cell: &Cell,
    side: Side,
) -> Result<Result<List<Variable>, Hindrance>, AllocError>
    ensures { IfOk result (λ variables. variables ≡ variables_by game.now cell.now (option_map_or (mappings_on side) (own_node game.now cell.now) [])) }
{
    given(alloc, mapped_at(game, alloc, cell, side))
}

// The variables that the mappings of a cell's node make, or the first fault of their sources; a root is at no node, and
// a body runs none.
fn mapped_at(
    game: &Game,
    alloc: Global,
    cell: &Cell,
    side: Side,
) -> Result<List<Variable>, EvalFault>
    ensures { Evaluates result (mapped (value_seen game.now cell.now.key) (option_map_or (mappings_on side) (own_node game.now cell.now) [])) }
{
    if is_body(cell) || is_root(cell) {
        return Ok(List::empty(alloc));
    }
    match game.model(cell.definition) {
        Some(model) => mapped_in(alloc, game, cell, model, side),
        None => Ok(List::empty(alloc)),
    }
}

// The same in its model.
fn mapped_in(
    alloc: Global,
    game: &Game,
    cell: &Cell,
    model: &Graph,
    side: Side,
) -> Result<List<Variable>, EvalFault>
    ensures { Evaluates result (mapped (value_seen game.now cell.now.key) (option_map_or (mappings_on side) (node_with model.now cell.now.node) [])) }
{
    match model.number(cell.node.as_str()) {
        Some(number) => mapped(alloc, game, cell.key, model, number, side),
        None => Ok(List::empty(alloc)),
    }
}

// The variables that the mappings of the node with a number make. Each source is evaluated in turn, and none is set.
fn mapped(
    alloc: Global,
    game: &Game,
    cell: Key,
    model: &Graph,
    number: u32,
    side: Side,
) -> Result<List<Variable>, EvalFault>
    requires { number < length model.now.nodes }
    ensures { Evaluates result (mapped (value_seen game.now cell) (mappings_at side model.now number)) }
{
    let mappings = mappings_of(model, number, side);
    let mut made = List::empty(alloc);
    for place in 0..mappings.len() {
        match value_at(alloc, game, cell, source_at(model, number, side, place)) {
            Ok(value) => add(alloc, &mappings[place], value, &mut made)?,
            Err(fault) => return Err(fault),
        }
    }
    Ok(made)
}

// Adds the variable of a mapping whose source has this value.
fn add(
    alloc: Global,
    mapping: &Mapping,
    value: Value,
    made: &mut List<Variable>,
) -> Result<(), AllocError>
    ensures { OnOk result (made.new ≡ made.old ++ record { name = mapping.now.target; value = value } ∷ []) }
{
    let name = mapping.target.copy(alloc)?;
    made.push(Variable { name, value })?;
    Ok(())
}

// The mappings of the node with a number.
fn mappings_of(model: &Graph, number: u32, side: Side) -> &[Mapping]
    requires { number < length model.now.nodes }
    ensures { result.now ≡ mappings_at side model.now number }
{
    let node = model.node(number);
    match side {
        Side::Inputs => node.inputs.as_slice(),
        Side::Outputs => node.outputs.as_slice(),
    }
}

// The code of the source of the mapping at a place.
fn source_at(model: &Graph, number: u32, side: Side, place: usize) -> &Code
    requires { place < length (mappings_at side model.now number) }
    ensures { option_map (λ m. m.source) (slice_get (mappings_at side model.now number) place) ≡ Some result.now }
{
    match side {
        Side::Inputs => model.input(number, place),
        Side::Outputs => model.output(number, place),
    }
}
