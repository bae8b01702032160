// Resolving an incident.
ghost use Rattle.std.specs.Prelude.{◌≡◌, List, IfOk};
ghost use Rattle.zb_model.specs.declared.record.Event.{Event};
ghost use Rattle.zb_rules.specs.Resolve.{is_without_retries, reason_to_resolve, resolved};
ghost use Rattle.zb_state.specs.State.{IsStateOf};

use crate::rejection::{no_such, wrong_state};
use std::alloc::{AllocError, Global};
use zb_follow::{Find, repair_event};
use zb_model::{Event, Key, Rejection};
use zb_state::State;

/// Why an incident isn't resolved: none has this key, or the job that is its cause has no try left.
pub fn reason(alloc: Global, state: &State, key: Key) -> Result<Option<Rejection>, AllocError>
    ensures { (es : List Event) → IsStateOf es state.now → IfOk result (λ rejection. rejection ≡ reason_to_resolve es key) }
{
    let Some(incident) = state.game().incident(key) else {
        return no_such(alloc, "no incident ", key);
    };
    let job = incident.job;
    if is_without_retries(state, job) {
        return wrong_state(alloc, "job ", job, " has no retries");
    }
    Ok(None)
}

// Whether the job with this key is there, and has no try left.
fn is_without_retries(state: &State, job: Key) -> bool
    ensures { (es : List Event) → IsStateOf es state.now → result ≡ is_without_retries job es }
{
    match state.jobs().get(job) {
        Some(job) => job.retries == 0,
        None => false,
    }
}

/// The incident is resolved, if it stands. It costs what `Game::incident` does.
#[derive(Drop)]
pub struct Resolved(pub Key);

impl Find for Resolved {
    ghost finds = { λ it p. resolved it.0 };

    fn find(self, _alloc: Global, state: &State) -> Result<Option<Event>, AllocError> {
        match state.game().incident(self.0) {
            Some(incident) => Ok(Some(repair_event(incident))),
            None => Ok(None),
        }
    }
}
