// Why a worker can't end a job.
ghost use Rattle.std.specs.Prelude.{◌≡◌, List, IfOk};
ghost use Rattle.zb_model.specs.declared.record.Event.{Event};
ghost use Rattle.zb_rules.specs.JobReasons.{reason_in, reason_to_end};
ghost use Rattle.zb_state.specs.State.{IsStateOf};

use crate::rejection::{no_such, wrong_state};
use std::alloc::{AllocError, Global};
use zb_model::{Key, Rejection};
use zb_state::State;
use zb_views::JobPhase;

/// Why a worker can't end a job: it isn't there, it has no try left, or nobody was given it so far.
pub fn reason(alloc: Global, state: &State, key: Key) -> Result<Option<Rejection>, AllocError>
    ensures { (es : List Event) → IsStateOf es state.now → IfOk result (λ rejection. rejection ≡ reason_to_end es key) }
{
    match state.jobs().get(key) {
        Some(job) => reason_in(alloc, key, job.phase),
        None => no_such(alloc, "no job ", key),
    }
}

// Why a worker can't end a job in a phase.
fn reason_in(alloc: Global, key: Key, phase: JobPhase) -> Result<Option<Rejection>, AllocError>
    ensures { IfOk result (λ rejection. rejection ≡ reason_in key phase) }
{
    match phase {
        JobPhase::Failed => wrong_state(alloc, "job ", key, " has no retries"),
        JobPhase::Created => wrong_state(alloc, "job ", key, " isn't activated"),
        JobPhase::Activated | JobPhase::TimedOut => Ok(None),
    }
}
