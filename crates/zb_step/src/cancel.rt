// Cancelling an instance.
ghost use Rattle.std.specs.Prelude.{◌≡◌, List, IfOk};
ghost use Rattle.zb_model.specs.declared.record.Event.{Event};
ghost use Rattle.zb_rules.specs.Cancel.{is_terminating, reason_to_cancel, cancelled};
ghost use Rattle.zb_rules.specs.Shown.{holds_of_game};
ghost use Rattle.zb_state.specs.State.{IsStateOf};

use crate::rejection::{no_such, wrong_state};
use std::alloc::{AllocError, Global};
use zb_follow::{Maker, WithBehind};
use zb_model::{Event, Key, Moment, Rejection};
use zb_state::{Out, Refusal, State};
use zb_tokens::Phase;
use zb_values::{is_instance, phase_of};

/// Why an instance isn't cancelled: there is none with this key, or it is being terminated.
pub fn reason(alloc: Global, state: &State, key: Key) -> Result<Option<Rejection>, AllocError>
    ensures { (es : List Event) → IsStateOf es state.now → IfOk result (λ rejection. rejection ≡ reason_to_cancel es key) }
{
    if !is_instance(state.game(), key) {
        return no_such(alloc, "no instance ", key);
    }
    if is_terminating(state, key) {
        return wrong_state(alloc, "instance ", key, " is being terminated");
    }
    Ok(None)
}

// Whether the cell with this key is terminating.
fn is_terminating(state: &State, key: Key) -> bool
    ensures { (es : List Event) → IsStateOf es state.now → result ≡ holds_of_game (is_terminating key) es }
{
    match phase_of(state.game(), key) {
        Some(phase) => phase == Phase::Terminating,
        None => false,
    }
}

/// The root of an instance begins to terminate, and what waits for it ends.
#[derive(Drop)]
pub struct Cancelled(pub Key);

impl Maker for Cancelled {
    ghost making = { λ it p moment. cancelled p moment it.0 };

    fn put(
        self,
        alloc: Global,
        state: &mut State,
        moment: Moment,
        out: &mut Out,
    ) -> Result<(), Refusal> {
        WithBehind(Event::ElementTerminating(self.0)).put(alloc, state, moment, out)
    }
}
