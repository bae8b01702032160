// Taking a job back from its worker.
ghost use Rattle.std.specs.Prelude.{◌≡◌, List, IfOk};
ghost use Rattle.zb_model.specs.declared.record.Event.{Event};
ghost use Rattle.zb_rules.specs.TimeOut.{reason_to_keep, reason_to_time_out, timed_out};
ghost use Rattle.zb_state.specs.State.{IsStateOf};

use crate::rejection::{no_such, wrong_state};
use std::alloc::{AllocError, Global};
use zb_follow::Maker;
use zb_model::{Event, Key, Moment, Rejection};
use zb_state::{Out, Refusal, State};
use zb_views::{Job, JobPhase};

/// Why a job isn't taken back from its worker: it isn't there, no worker has it, or its deadline lies ahead.
pub fn reason(
    alloc: Global,
    state: &State,
    moment: Moment,
    key: Key,
) -> Result<Option<Rejection>, AllocError>
    ensures { (es : List Event) → IsStateOf es state.now → IfOk result (λ rejection. rejection ≡ reason_to_time_out es moment key) }
{
    match state.jobs().get(key) {
        Some(job) => reason_to_keep(alloc, moment, job),
        None => no_such(alloc, "no job ", key),
    }
}

// Why a job that is there isn't taken back: no worker has it, or its deadline lies ahead.
fn reason_to_keep(alloc: Global, moment: Moment, job: &Job) -> Result<Option<Rejection>, AllocError>
    ensures { IfOk result (λ rejection. rejection ≡ reason_to_keep moment job.now) }
{
    if !matches!(job.phase, JobPhase::Activated) {
        return wrong_state(alloc, "job ", job.key, " isn't activated");
    }
    if moment < job.deadline {
        return wrong_state(alloc, "job ", job.key, " isn't due");
    }
    Ok(None)
}

/// The job is taken back.
#[derive(Drop)]
pub struct TimedOut(pub Key);

impl Maker for TimedOut {
    ghost making = { λ it p moment. timed_out it.0 };

    fn put(
        self,
        alloc: Global,
        state: &mut State,
        moment: Moment,
        out: &mut Out,
    ) -> Result<(), Refusal> {
        Event::JobTimedOut(self.0).put(alloc, state, moment, out)
    }
}
