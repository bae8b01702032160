// Going on with what is forced.
ghost use Rattle.std.specs.Prelude.{◌≡◌, List, IfOk};
ghost use Rattle.zb_model.specs.declared.record.Event.{Event};
ghost use Rattle.zb_rules.specs.Continue.{reason_to_continue};
ghost use Rattle.zb_state.specs.State.{IsStateOf};

use crate::rejection::rejection;
use std::alloc::{AllocError, Global};
use zb_model::{Rejection, RejectionKind};
use zb_state::State;

/// Why there is nothing to go on with: nobody is forced to move.
pub fn reason(alloc: Global, state: &State) -> Result<Option<Rejection>, AllocError>
    ensures { (es : List Event) → IsStateOf es state.now → IfOk result (λ rejection. rejection ≡ reason_to_continue es) }
{
    if !state.quiet() {
        return Ok(None);
    }
    rejection(alloc, RejectionKind::InvalidState, "nothing to continue")
}
