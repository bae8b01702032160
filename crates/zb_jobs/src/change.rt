// What an event makes of a job.
ghost use Rattle.std.specs.Prelude.{◌≡◌, IfOk};
ghost use Rattle.zb_views.specs.Jobs.{failed_phase, new_job, job_changed, says_nothing_of_jobs};

use std::alloc::{AllocError, Global};
use zb_model::{Event, JobCreated, Moment, TryCopy};
use zb_table::Edit;
use zb_views::{Job, JobPhase};

/// The job that is made, as it is first. It costs a copy of its type.
pub fn made(alloc: Global, made: &JobCreated) -> Result<Job, AllocError>
    ensures { IfOk result (λ job. job ≡ new_job made.now) }
{
    Ok(Job {
        key: made.key,
        cell: made.cell,
        kind: made.kind.copy(alloc)?,
        retries: made.retries,
        phase: JobPhase::Created,
        deadline: Moment::new(0),
    })
}

/// A job becomes what an event says.
#[derive(Drop)]
pub struct AsTold<'a> {
    pub event: &'a Event,
}

impl<'a> Edit<Job> for AsTold<'a> {
    ghost edits = { λ e j. job_changed e.event.now j };

    fn edit(self, row: Job) -> Result<Job, AllocError> {
        Ok(changed(row, self.event))
    }
}

// The job as the event says.
fn changed(mut job: Job, event: &Event) -> Job
    ensures { result ≡ job_changed event.now job }
{
    match event {
        Event::JobActivated(e) if e.key == job.key => {
            job.phase = JobPhase::Activated;
            job.deadline = e.deadline;
            job
        }
        Event::JobTimedOut(key) if *key == job.key => {
            job.phase = JobPhase::TimedOut;
            job
        }
        Event::JobFailed(e) if e.key == job.key => {
            job.phase = failed_phase(e.retries);
            job.retries = e.retries;
            job
        }
        Event::JobRetriesUpdated(e) if e.key == job.key => {
            job.retries = e.retries;
            job
        }
        Event::IncidentResolved(e) if e.job == job.key => {
            job.phase = JobPhase::Created;
            job
        }
        _ => job,
    }
}

// The phase of a job that failed with so many tries left.
fn failed_phase(retries: u32) -> JobPhase
    ensures { result ≡ failed_phase retries }
{
    if retries == 0 {
        JobPhase::Failed
    } else {
        JobPhase::Created
    }
}

/// Whether the event makes no job, ends none and changes none.
pub fn says_nothing_of_jobs(event: &Event) -> bool
    ensures { result ≡ says_nothing_of_jobs event.now }
{
    !matches!(
        event,
        Event::JobCreated(_)
            | Event::JobActivated(_)
            | Event::JobTimedOut(_)
            | Event::JobCompleted(_)
            | Event::JobCanceled(_)
            | Event::JobFailed(_)
            | Event::JobErrorThrown(_)
            | Event::JobRetriesUpdated(_)
            | Event::ElementTerminating(_)
            | Event::IncidentResolved(_)
    )
}
