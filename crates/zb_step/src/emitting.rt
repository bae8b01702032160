ghost use Rattle.std.specs.Prelude.{◌≡◌, ◌++◌, List, [], Some, None, OnOk, IsErrOf};
ghost use Rattle.zb_model.specs.declared.record.Event.{Event};
ghost use Rattle.zb_rules.specs.Reason.{reason_for};
ghost use Rattle.zb_rules.specs.Own.{IsSupported, own_events};
ghost use Rattle.zb_rules.specs.Sound.{HasOrderedNames};
ghost use Rattle.zb_state.specs.State.{partition_of, IsStateOf, IsUnreached};
ghost use Rattle.zb_state.specs.declared.refusal.Refusal.TheVariants.{Misfit};

use crate::commands::{Own, keys_for};
use std::alloc::Global;
use zb_follow::Maker;
use zb_model::{Command, Moment};
use zb_state::{Out, Refusal, State};

/// Makes a command's own events, where there is no reason against it. Each event
/// costs what `Out::put` does. Where the command's keys aren't left it is answered as want of memory. A misfit comes only
/// where no events come to the state. After a refusal the state and the events are only dropped.
pub fn emit(
    alloc: Global,
    state: &mut State,
    moment: Moment,
    own: Own<'_>,
    out: &mut Out,
) -> Result<(), Refusal>
    requires run { IsSupported own.command.now }
    requires none { out.old ≡ [] }
    requires unrefused { (es : List Event) → IsStateOf es state.old → reason_for es moment own.command.now ≡ None }
    ensures own { (es : List Event) → IsStateOf es state.old
        → OnOk result (own_events (partition_of state.old) own.entry.partitions es moment own.entry.command.now ≡ Some out.new) }
    ensures state { (es : List Event) → IsStateOf es state.old → OnOk result (IsStateOf (es ++ out.new) state.new) }
    ensures place { partition_of state.new ≡ partition_of state.old }
    ensures misfit { IsErrOf result Misfit → IsUnreached state.old }
{
    if !state.has_keys(keys_for(state, own.command)) {
        return Err(Refusal::Memory);
    }
    see_names(own.command);
    own.put(alloc, state, moment, out)
}

// A command has its variables by ascending names.
fn see_names(command: &Command)
    ensures { HasOrderedNames command.now }
{
    match command {
        Command::ProcessInstanceCreationCreate(instance) => {
            let _ = instance.variables.as_slice();
        }
        Command::MessagePublish(message) => {
            let _ = message.variables.as_slice();
        }
        _ => {}
    }
}
