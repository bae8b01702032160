// Updating variables from a scope on up.
ghost use Rattle.std.specs.Prelude.{◌≡◌, List, IfOk};
ghost use Rattle.zb_model.specs.declared.record.Event.{Event};
ghost use Rattle.zb_rules.specs.Update.{reason_to_update, updated};
ghost use Rattle.zb_state.specs.State.{IsStateOf};

use crate::rejection::no_such;
use std::alloc::{AllocError, Global};
use zb_follow::{Each, Maker, Place};
use zb_model::{Event, Key, Moment, Rejection, VariableDocumentUpdate};
use zb_state::{Out, Refusal, State};
use zb_values::phase_of;

/// Why variables aren't updated: no cell has the key of their scope.
pub fn reason(alloc: Global, state: &State, scope: Key) -> Result<Option<Rejection>, AllocError>
    ensures { (es : List Event) → IsStateOf es state.now → IfOk result (λ rejection. rejection ≡ reason_to_update es scope) }
{
    if phase_of(state.game(), scope).is_some() {
        return Ok(None);
    }
    no_such(alloc, "no scope ", scope)
}

/// The variables are set one after the other, and then the document is updated. Each costs what `holder_of` and
/// `Out::put` do.
#[derive(Drop)]
pub struct Updated<'a>(pub &'a VariableDocumentUpdate);

impl Maker for Updated<'_> {
    ghost making = { λ it p moment. updated it.0.now };

    fn put(
        self,
        alloc: Global,
        state: &mut State,
        moment: Moment,
        out: &mut Out,
    ) -> Result<(), Refusal> {
        let command = self.0;
        let scope = command.scope;
        let local = command.local;
        let finder = &Place { local, scope };
        let things = command.variables.as_slice();
        let updated = Event::VariableDocumentUpdated(scope);
        (Each { finder, things }, updated).put(alloc, state, moment, out)
    }
}
