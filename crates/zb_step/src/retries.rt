// Giving a job tries anew.
ghost use Rattle.std.specs.Prelude.{◌≡◌, List, IfOk};
ghost use Rattle.zb_model.specs.declared.record.Event.{Event};
ghost use Rattle.zb_rules.specs.Retries.{reason_to_retry, retried};
ghost use Rattle.zb_state.specs.State.{IsStateOf};

use crate::rejection::{no_such, rejection};
use std::alloc::{AllocError, Global};
use zb_follow::Maker;
use zb_model::{Event, JobRetries, Moment, Rejection, RejectionKind};
use zb_state::{Out, Refusal, State};

/// Why a job isn't given tries: they are none, or it isn't there.
pub fn reason(
    alloc: Global,
    state: &State,
    command: &JobRetries,
) -> Result<Option<Rejection>, AllocError>
    ensures { (es : List Event) → IsStateOf es state.now → IfOk result (λ rejection. rejection ≡ reason_to_retry es command.now) }
{
    if command.retries == 0 {
        return rejection(alloc, RejectionKind::InvalidArgument, "retries are 0");
    }
    match state.jobs().get(command.key) {
        Some(_) => Ok(None),
        None => no_such(alloc, "no job ", command.key),
    }
}

/// The job is given so many tries.
#[derive(Drop)]
pub struct Retried<'a>(pub &'a JobRetries);

impl Maker for Retried<'_> {
    ghost making = { λ it p moment. retried it.0.now };

    fn put(
        self,
        alloc: Global,
        state: &mut State,
        moment: Moment,
        out: &mut Out,
    ) -> Result<(), Refusal> {
        Event::JobRetriesUpdated(*self.0).put(alloc, state, moment, out)
    }
}
