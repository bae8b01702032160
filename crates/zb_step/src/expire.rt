// Expiring a message.
ghost use Rattle.std.specs.Prelude.{◌≡◌, List, IfOk, nat_le, not, if◌then◌else◌};
ghost use Rattle.zb_model.specs.declared.record.Event.{Event};
ghost use Rattle.zb_rules.specs.Expire.{reason_to_expire, not_due, expired};
ghost use Rattle.zb_state.specs.State.{IsStateOf};

use crate::rejection::{no_such, wrong_state};
use std::alloc::{AllocError, Global};
use zb_follow::Maker;
use zb_model::{Event, Key, Moment, Rejection, RejectionKind};
use zb_state::{Out, Refusal, State};

/// Why a message doesn't expire: it isn't buffered, or its deadline lies ahead. It costs what `Messages::deadline_of`
/// does.
pub fn reason(
    alloc: Global,
    state: &State,
    moment: Moment,
    key: Key,
) -> Result<Option<Rejection>, AllocError>
    ensures { (es : List Event) → IsStateOf es state.now → IfOk result (λ rejection. rejection ≡ reason_to_expire es moment key) }
{
    match state.messages().deadline_of(key) {
        Some(deadline) => reason_to_wait(alloc, moment, key, deadline),
        None => no_such(alloc, "no message ", key),
    }
}

// Why a message that is buffered doesn't expire: its deadline lies ahead.
fn reason_to_wait(
    alloc: Global,
    moment: Moment,
    key: Key,
    deadline: Moment,
) -> Result<Option<Rejection>, AllocError>
    ensures { IfOk result (λ rejection. rejection
        ≡ (if not (nat_le deadline moment) then Some (record { kind = RejectionKind.InvalidState; reason = not_due key }) else None)) }
{
    if moment < deadline {
        return wrong_state(alloc, "message ", key, " isn't due");
    }
    Ok(None)
}

/// The message expires.
#[derive(Drop)]
pub struct Expired(pub Key);

impl Maker for Expired {
    ghost making = { λ it p moment. expired it.0 };

    fn put(
        self,
        alloc: Global,
        state: &mut State,
        moment: Moment,
        out: &mut Out,
    ) -> Result<(), Refusal> {
        Event::MessageExpired(self.0).put(alloc, state, moment, out)
    }
}
