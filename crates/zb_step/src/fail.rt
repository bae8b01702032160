// Failing a job.
ghost use Rattle.zb_rules.specs.Fail.{stopped, failed};

use std::alloc::{AllocError, Global};
use zb_follow::{Find, Found, Maker};
use zb_model::{Event, IncidentCreated, IncidentKind, JobFailure, Moment, TryCopy};
use zb_state::{Out, Refusal, State};

/// The job has failed, and its cell is stopped where no try is left.
#[derive(Drop)]
pub struct Failed<'a>(pub &'a JobFailure);

impl Maker for Failed<'_> {
    ghost making = { λ it p moment. failed p it.0.now };

    fn put(
        self,
        alloc: Global,
        state: &mut State,
        moment: Moment,
        out: &mut Out,
    ) -> Result<(), Refusal> {
        let command = self.0;
        let failure = Event::JobFailed(command.copy(alloc)?);
        (failure, Found(Stopped(command))).put(alloc, state, moment, out)
    }
}

// An incident stands on the job's cell, where no try is left.
#[derive(Drop)]
struct Stopped<'a>(&'a JobFailure);

impl Find for Stopped<'_> {
    ghost finds = { λ it p. stopped p it.0.now };

    fn find(self, alloc: Global, state: &State) -> Result<Option<Event>, AllocError> {
        let command = self.0;
        if command.retries != 0 {
            return Ok(None);
        }
        let Some(job) = state.jobs().get(command.key) else {
            return Ok(None);
        };
        Ok(Some(Event::IncidentCreated(IncidentCreated {
            key: state.next_key(),
            kind: IncidentKind::JobNoRetries,
            cell: job.cell,
            job: command.key,
            text: command.text.copy(alloc)?,
        })))
    }
}
