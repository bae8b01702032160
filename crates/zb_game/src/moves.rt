ghost use Rattle.std.specs.Prelude.{◌≡◌, IfOk};
ghost use Rattle.zb_tokens.specs.Marks.{error_of};
ghost use Rattle.zb_tokens.specs.Errors.{caught};
ghost use Rattle.zb_tokens.specs.Forced.{act_by, catch_by, end_in, entry_at, entry_of, finish_by, move_at, move_in, move_of, take_first};
ghost use Rattle.zb_game.specs.Searches.{entry_by};

use crate::errors::caught;
use crate::handlers::next_handler;
use std::alloc::{AllocError, Global};
use zb_base::{Key, Moment, Text, TryCopy};
use zb_board::{Game, error_of, has_item, is_body};
use zb_graph::Graph;
use zb_places::way_by;
use zb_tokens::{Cell, Enter, Inner, Move, Mover, Phase, Spot, Take, Token, Triggered, Undo};
use zb_values::{complete_by, open_by, uncaught};

/// The move of a mover, where a cell that begins, or an incident, gets this key; `None` where the mover isn't there
/// or does nothing. A cell or a model is found as in `fits`; it goes up the scopes where a cell is terminating or
/// ended, and through the flows out of a node, and the texts of the move are copied. The inputs of
/// a cell that becomes active are evaluated, and then when its timers are due that open at this moment, which are
/// found as in `openings_at`; so are the outputs of one that has completed, and at an exclusive gateway the
/// conditions of the flows, up to the one that decides. For each name in them it goes up the scopes, for one in the
/// text of a timer also through the inputs. For an error that was thrown in the cell it goes up the scopes, and
/// through the boundary events of each cell.
pub fn move_of(
    game: &Game,
    alloc: Global,
    moment: Moment,
    key: Key,
    mover: Mover,
) -> Result<Option<Move>, AllocError>
    ensures { IfOk result (λ move. move ≡ move_of game.now moment key mover) }
{
    match mover {
        Mover::Cell(cell) => match game.cell(cell) {
            Some(cell) => move_at(game, alloc, moment, key, cell),
            None => Ok(None),
        },
        Mover::Token(token) => entry_of(game, alloc, key, &token),
    }
}

// What a cell does by itself, or how it ends where it is doomed.
fn move_at(
    game: &Game,
    alloc: Global,
    moment: Moment,
    key: Key,
    cell: &Cell,
) -> Result<Option<Move>, AllocError>
    ensures { IfOk result (λ move. move ≡ move_at game.now moment key cell.now) }
{
    if game.is_doomed(cell) {
        return Ok(end_of(cell));
    }
    move_in(game, alloc, moment, key, cell)
}

// What a cell does by itself in its phase.
fn move_in(
    game: &Game,
    alloc: Global,
    moment: Moment,
    key: Key,
    cell: &Cell,
) -> Result<Option<Move>, AllocError>
    ensures { IfOk result (λ move. move ≡ move_in game.now moment key cell.now cell.now.phase) }
{
    match cell.phase {
        Phase::Activating => Ok(Some(open_by(game, alloc, moment, key, cell)?)),
        Phase::Active => Ok(Some(finish_by(game, alloc, key, cell)?)),
        Phase::Completing => Ok(Some(complete_by(game, alloc, key, cell)?)),
        Phase::Leaving => take_first(alloc, cell.key, cell.owed.as_slice()),
        Phase::Terminating => Ok(Some(Move::Gone(cell.key))),
    }
}

// How an active cell begins a run or begins to complete, or how an error that was thrown in it comes about where it is caught, or the
// incident under this key that tells of it.
fn finish_by(game: &Game, alloc: Global, key: Key, cell: &Cell) -> Result<Move, AllocError>
    ensures { IfOk result (λ move. move ≡ finish_by game.now key cell.now (caught game.now cell.now) (error_of cell.now.mark)) }
{
    match error_of(&cell.mark) {
        Some(code) => catch_by(game, alloc, key, cell, code.as_str()),
        None => act_by(game, alloc, key, cell),
    }
}

// How an active cell begins a run for its next item under this key, or runs its next handler, or begins to complete where
// neither is left.
fn act_by(game: &Game, alloc: Global, key: Key, cell: &Cell) -> Result<Move, AllocError>
    ensures { IfOk result (λ move. move ≡ act_by game.now key cell.now) }
{
    if is_body(cell) && has_item(cell) {
        let body = cell.key;
        return Ok(Move::Inner(Inner { key, body }));
    }
    match next_handler(game, cell) {
        Some(handler) => Ok(Move::Undo(Undo {
            key,
            event: cell.key,
            node: handler.copy(alloc)?,
        })),
        None => Ok(Move::Finish(cell.key)),
    }
}

// How an error that was thrown in a cell comes about where it is caught, or the incident under this key that tells of it.
fn catch_by(
    game: &Game,
    alloc: Global,
    key: Key,
    cell: &Cell,
    code: &str,
) -> Result<Move, AllocError>
    ensures { IfOk result (λ move. move ≡ catch_by key cell.now code.now (caught game.now cell.now)) }
{
    match caught(game, cell) {
        Some((host, event)) => {
            let node = event.copy(alloc)?;
            Ok(Move::Trigger(Triggered { cell: host, node }))
        }
        None => uncaught(alloc, key, cell, code),
    }
}

// How a token enters the node that it has come to.
fn entry_of(game: &Game, alloc: Global, key: Key, token: &Token) -> Result<Option<Move>, AllocError>
    ensures { IfOk result (λ move. move ≡ entry_of game.now key token.now) }
{
    let Some(cell) = game.cell(token.scope) else {
        return Ok(None);
    };
    let Some(model) = game.model(cell.definition) else {
        return Ok(None);
    };
    entry_in(alloc, model, key, token)
}

// How a doomed cell ends in its phase.
fn end_of(cell: &Cell) -> Option<Move>
    ensures { result ≡ end_in cell.now cell.now.phase }
{
    match cell.phase {
        Phase::Leaving => None,
        Phase::Terminating => Some(Move::Gone(cell.key)),
        Phase::Activating | Phase::Active | Phase::Completing => Some(Move::Halt(cell.key)),
    }
}

// The taking of the first flow that is owed.
fn take_first(alloc: Global, key: Key, owed: &[Text]) -> Result<Option<Move>, AllocError>
    ensures { IfOk result (λ move. move ≡ take_first key owed.now) }
{
    match owed {
        [flow, ..] => {
            let flow = flow.copy(alloc)?;
            Ok(Some(Move::Take(Take { key, flow })))
        }
        [] => Ok(None),
    }
}

// How a token in a model enters the node that it has come to.
fn entry_in(
    alloc: Global,
    model: &Graph,
    key: Key,
    token: &Token,
) -> Result<Option<Move>, AllocError>
    ensures { IfOk result (λ move. move ≡ entry_by key token.now.scope (entry_at model.now token.now.spot)) }
{
    match &token.spot {
        Spot::BeforeNode(node) => {
            let node = node.copy(alloc)?;
            let via = Text::empty(alloc);
            let scope = token.scope;
            Ok(Some(Move::Enter(Enter {
                key,
                scope,
                node,
                via,
            })))
        }
        Spot::OnFlow(id) => match model.flow_with(id.as_str()) {
            Some(flow) => {
                let via = Text::of(alloc, way_by(model, flow.to.as_str(), id.as_str()))?;
                let node = flow.to.copy(alloc)?;
                let scope = token.scope;
                Ok(Some(Move::Enter(Enter {
                    key,
                    scope,
                    node,
                    via,
                })))
            }
            None => Ok(None),
        },
    }
}
