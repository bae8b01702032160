// How a step goes on by itself.
ghost use Rattle.std.specs.Prelude.{◌≡◌, ◌↔◌, ◌++◌, List, Some, IsTrue, IfOk, OnOk, IsErrOf};
ghost use Rattle.zb_model.specs.declared.record.Event.{Event};
ghost use Rattle.zb_tokens.specs.Board.{Board};
ghost use Rattle.zb_tokens.specs.Forced.{next_mover};
ghost use Rattle.zb_rules.specs.Shown.{board_of};
ghost use Rattle.zb_rules.specs.Settling.{turn_with, HasQuietGame};
ghost use Rattle.zb_state.specs.State.{partition_of, IsStateOf, IsUnreached};
ghost use Rattle.zb_state.specs.declared.refusal.Refusal.TheVariants.{Misfit};
ghost use Rattle.zb_follow.specs.Settled.{IsTurn, SettlesTo};

use crate::making::Maker;
use std::alloc::Global;
use zb_model::Moment;
use zb_rules::is_full;
use zb_state::{Out, Refusal, State, Turn};
use zb_tokens::Mover;

// No turn draws more keys.
const KEYS_OF_TURN: u64 = 1002;

/// Makes the forced moves behind the events that a command has made so far at a moment, one after the other, until
/// the game is quiet or the batch is full. Tells whether the game is quiet. Each move costs what
/// `State::next_mover` does, and each of its events what `State::apply` does. Where the keys of a turn aren't left it is
/// answered as want of memory. A misfit comes only where no events come to the state. After a refusal the state and the
/// events are only dropped.
pub fn settle(
    alloc: Global,
    state: &mut State,
    moment: Moment,
    out: &mut Out,
) -> Result<bool, Refusal>
    ensures settled { (before : List Event) → IsStateOf (before ++ out.old) state.old
        → OnOk result (SettlesTo (partition_of state.old) moment before out.old out.new) }
    ensures state { (before : List Event) → IsStateOf (before ++ out.old) state.old → OnOk result (IsStateOf (before ++ out.new) state.new) }
    ensures quiet { (before : List Event) → IsStateOf (before ++ out.old) state.old
        → IfOk result (λ quiet. IsTrue quiet ↔ HasQuietGame (before ++ out.new)) }
    ensures place { partition_of state.new ≡ partition_of state.old }
    ensures misfit { IsErrOf result Misfit → IsUnreached state.old }
{
    while !is_full(out.len()) {
        match state.next_mover(alloc)? {
            None => return Ok(true),
            Some(mover) => {
                let turn = next_turn(alloc, state, moment, mover)?;
                turn.put(alloc, state, moment, out)?;
            }
        }
    }
    Ok(state.quiet())
}

// What who is forced to move next does: that is the next turn.
fn next_turn(alloc: Global, state: &State, moment: Moment, mover: Mover) -> Result<Turn, Refusal>
    requires { (es : List Event) (board : Board) → IsStateOf es state.now → board_of es ≡ Some board → next_mover board ≡ Some mover }
    ensures turn { (es : List Event) → IsStateOf es state.now
        → IfOk result (λ turn. IsTurn (partition_of state.now) moment es (turn_with (partition_of state.now) moment turn.assignments turn.event es)) }
    ensures misfit { IsErrOf result Misfit → IsUnreached state.now }
{
    if !state.has_keys(KEYS_OF_TURN) {
        return Err(Refusal::Memory);
    }
    match state.turn_of(alloc, moment, mover)? {
        Some(turn) => Ok(turn),
        None => Err(Refusal::Misfit),
    }
}
