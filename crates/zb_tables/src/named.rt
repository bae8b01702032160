// The rows that an event names.
ghost use Rattle.std.specs.Prelude.{◌≡◌};
ghost use Rattle.zb_tables.specs.Named.{named_message, named_job, named_timer};

use zb_jobs::Jobs;
use zb_model::{Event, Key};

/// The keys of the rows that an event may make, change or end: of a message, of a job and of a timer.
#[derive(Clone, Copy)]
pub struct Named {
    pub message: Option<Key>,
    pub job: Option<Key>,
    pub timer: Option<Key>,
}

impl Named {
    /// Those that an event names where these jobs are there. It costs what `Jobs::on` does.
    pub fn in_event(event: &Event, jobs: &Jobs) -> Named
        ensures message { result.message ≡ named_message event.now }
        ensures job { result.job ≡ named_job jobs.now event.now }
        ensures timer { result.timer ≡ named_timer event.now }
    {
        Named {
            message: message_in(event),
            job: job_in(event, jobs),
            timer: timer_in(event),
        }
    }
}

// The message that an event names.
fn message_in(event: &Event) -> Option<Key>
    ensures { result ≡ named_message event.now }
{
    match event {
        Event::MessagePublished(message) => Some(message.key),
        Event::MessageExpired(key) => Some(*key),
        _ => None,
    }
}

// The timer that an event names.
fn timer_in(event: &Event) -> Option<Key>
    ensures { result ≡ named_timer event.now }
{
    match event {
        Event::TimerCreated(timer) => Some(timer.key),
        Event::TimerTriggered(key) | Event::TimerCanceled(key) => Some(*key),
        _ => None,
    }
}

// The job that an event names, or that waits on the cell that it names.
fn job_in(event: &Event, jobs: &Jobs) -> Option<Key>
    ensures { result ≡ named_job jobs.now event.now }
{
    match event {
        Event::JobCreated(job) => Some(job.key),
        Event::JobActivated(given) => Some(given.key),
        Event::JobTimedOut(key) | Event::JobCompleted(key) | Event::JobCanceled(key) => Some(*key),
        Event::JobFailed(failed) => Some(failed.key),
        Event::JobErrorThrown(thrown) => Some(thrown.key),
        Event::JobRetriesUpdated(updated) => Some(updated.key),
        Event::IncidentResolved(incident) => Some(incident.job),
        Event::ElementTerminating(cell) => jobs.on(*cell),
        _ => None,
    }
}
