ghost use Rattle.std.specs.Prelude.{◌≡◌, ◌++◌, List, None, IfOk, OnOk, IsErrOf};
ghost use Rattle.zb_model.specs.declared.record.Event.{Event};
ghost use Rattle.zb_views.specs.View.{events_in};
ghost use Rattle.zb_rules.specs.Reason.{reason_for};
ghost use Rattle.zb_rules.specs.Own.{IsSupported};
ghost use Rattle.zb_rules.specs.Step.{IsAcceptance, IsOutcomeOf};
ghost use Rattle.zb_state.specs.State.{partition_of, IsStateOf, IsUnreached};
ghost use Rattle.zb_state.specs.declared.refusal.Refusal.TheVariants.{Misfit};

use crate::commands::{Own, reason};
use crate::emitting::emit;
use std::alloc::Global;
use zb_follow::settle;
use zb_model::{Command, Moment, Outcome};
use zb_state::{Out, Refusal, State};

/// What a command leads to at this moment, at one of so many partitions: its rejection, exactly where there is a
/// reason, or its own events and what they force. The state is then that of the events with these. A misfit comes only
/// where no events come to the state. After a refusal it is only dropped.
pub fn outcome_of(
    alloc: Global,
    state: &mut State,
    partitions: u32,
    moment: Moment,
    command: &Command,
) -> Result<Outcome, Refusal>
    requires run { IsSupported command.now }
    ensures outcome { (es : List Event) → IsStateOf es state.old
        → IfOk result (IsOutcomeOf (partition_of state.old) partitions moment es command.now) }
    ensures state { (es : List Event) → IsStateOf es state.old → IfOk result (λ outcome. IsStateOf (es ++ events_in outcome) state.new) }
    ensures place { partition_of state.new ≡ partition_of state.old }
    ensures misfit { IsErrOf result Misfit → IsUnreached state.old }
{
    match reason(alloc, state, moment, command)? {
        Some(rejection) => Ok(Outcome::Rejected(rejection)),
        None => run(
            alloc,
            state,
            moment,
            Own {
                partitions,
                command,
            },
        ),
    }
}

// Runs a command: its outcome are its own events, and what they force.
fn run(alloc: Global, state: &mut State, moment: Moment, own: Own<'_>) -> Result<Outcome, Refusal>
    requires run { IsSupported own.command.now }
    requires unrefused { (es : List Event) → IsStateOf es state.old → reason_for es moment own.command.now ≡ None }
    ensures acceptance { (es : List Event) → IsStateOf es state.old
        → IfOk result (IsAcceptance (partition_of state.old) own.entry.partitions moment es own.entry.command.now) }
    ensures state { (es : List Event) → IsStateOf es state.old → IfOk result (λ outcome. IsStateOf (es ++ events_in outcome) state.new) }
    ensures place { partition_of state.new ≡ partition_of state.old }
    ensures misfit { IsErrOf result Misfit → IsUnreached state.old }
{
    let mut out = Out::new(alloc)?;
    emit(alloc, state, moment, own, &mut out)?;
    settle(alloc, state, moment, &mut out)?;
    Ok(Outcome::Accepted(out.events()))
}
