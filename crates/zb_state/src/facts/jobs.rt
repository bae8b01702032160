// What events of jobs ask of the jobs that are there, and of the cells that wait for them.
ghost use Rattle.std.specs.Prelude.{◌≡◌, ◌==◌, ◌&&◌, false, List, IsTrue, is_none};
ghost use Rattle.std.specs.List.{find, list_any};
ghost use Rattle.std.specs.Option.{option_map_or};
ghost use Rattle.zb_model.specs.declared.record.Event.{Event};
ghost use Rattle.zb_model.specs.declared.record.Event.TheVariants as events;
ghost use Rattle.zb_views.specs.Jobs.{job_at, is_activatable, is_activated, is_given_out, is_failed};
ghost use Rattle.zb_tokens.specs.Work.{is_cause_of};
ghost use Rattle.zb_rules.specs.Applies.{is_fresh};
ghost use Rattle.zb_rules.specs.Shown.{holds_of_game};
ghost use Rattle.zb_rules.specs.JobEvents.{has_job, is_job_in, begins_job, hands_out, are_jobs, has_cause};
ghost use Rattle.zb_state.specs.State.{partition_of, IsStateOf};
ghost use Rattle.zb_tables.specs.Tables.{Draws};

use crate::Facts;
use zb_jobs::Jobs;
use zb_model::{IncidentCreated, IncidentKind, JobActivated, JobCreated, Key};
use zb_values::{is_work_in, may_have_job};
use zb_views::JobPhase;

impl Facts {
    // Whether the job with this key is there.
    pub(super) fn has_job(&self, key: Key) -> bool
        ensures { (es : List Event) → IsStateOf es self.now → result ≡ has_job key es }
    {
        self.tables.jobs.get(key).is_some()
    }

    // Whether the key of a job is fresh, and it may be made for its cell.
    pub(super) fn makes_job(&self, made: &JobCreated) -> bool
        ensures draws { IsTrue result → Draws (partition_of self.now) self.now.counter self.now.tables.jobs (events.JobCreated made.now) }
        ensures own { (es : List Event) → IsStateOf es self.now
            → result ≡ (is_fresh (partition_of self.now) es made.now.key && begins_job made.now.cell es) }
    {
        self.is_fresh(made.key) && self.begins_job(made.cell)
    }

    // Whether a job may be made for this cell.
    fn begins_job(&self, cell: Key) -> bool
        ensures first { IsTrue result → IsTrue (is_none (find (λ j. j.cell == cell) self.now.tables.jobs)) }
        ensures begins { (es : List Event) → IsStateOf es self.now → result ≡ begins_job cell es }
    {
        may_have_job(self.game.board(), cell) && self.tables.jobs.on(cell).is_none()
    }

    // Whether a worker may be given this.
    pub(super) fn hands_out(&self, given: &JobActivated) -> bool
        ensures { (es : List Event) → IsStateOf es self.now → result ≡ hands_out given.now es }
    {
        match self.tables.jobs.get(given.key) {
            Some(job) => {
                is_activatable(job.phase)
                    && is_work_in(
                        self.game.board(),
                        job.cell,
                        given.instance,
                        given.node.as_str(),
                    )
            }
            None => false,
        }
    }

    // Whether a worker has the job with this key.
    pub(super) fn has_activated(&self, key: Key) -> bool
        ensures { (es : List Event) → IsStateOf es self.now → result ≡ is_job_in is_activated key es }
    {
        match self.tables.jobs.get(key) {
            Some(job) => matches!(job.phase, JobPhase::Activated),
            None => false,
        }
    }

    // Whether a worker has it, or had it last.
    pub(super) fn has_given_out(&self, key: Key) -> bool
        ensures { (es : List Event) → IsStateOf es self.now → result ≡ is_job_in is_given_out key es }
    {
        match self.tables.jobs.get(key) {
            Some(job) => job.phase.is_given_out(),
            None => false,
        }
    }

    // Whether each of these jobs is there.
    pub(super) fn are_jobs(&self, keys: &[Key]) -> bool
        ensures { (es : List Event) → IsStateOf es self.now → result ≡ are_jobs keys.now es }
    {
        !lacks_one(&self.tables.jobs, keys)
    }

    // Whether an incident tells of a job that has failed, and is that of its cell; or names none where it tells of none.
    pub(super) fn has_cause(&self, incident: &IncidentCreated) -> bool
        ensures { (es : List Event) → IsStateOf es self.now → result ≡ has_cause incident.now es }
    {
        if incident.kind != IncidentKind::JobNoRetries {
            return incident.job == Key::new(0);
        }
        incident.job != Key::new(0) && self.has_failed(incident.job, incident.cell)
    }

    // Whether the job with this key has failed, and is that of the cell.
    fn has_failed(&self, key: Key, cell: Key) -> bool
        ensures { (es : List Event) → IsStateOf es self.now
            → result ≡ option_map_or (λ j. is_failed j.phase && (j.cell == cell)) (job_at key es) false }
    {
        match self.tables.jobs.get(key) {
            Some(job) => matches!(job.phase, JobPhase::Failed) && job.cell == cell,
            None => false,
        }
    }

    // Whether the job is the cause of the incident with this key; 0 where none is.
    pub(super) fn is_cause_of(&self, job: Key, incident: Key) -> bool
        ensures { (es : List Event) → IsStateOf es self.now → result ≡ holds_of_game (is_cause_of job incident) es }
    {
        match self.game.board().incident(incident) {
            Some(found) => found.job == job,
            None => false,
        }
    }
}

// Whether a job in this phase may be given to a worker.
fn is_activatable(phase: JobPhase) -> bool
    ensures { result ≡ is_activatable phase }
{
    matches!(phase, JobPhase::Created | JobPhase::TimedOut)
}

// Whether one of these jobs isn't there.
fn lacks_one(jobs: &Jobs, keys: &[Key]) -> bool
    ensures { result ≡ list_any (λ key. is_none (find (λ j. j.key == key) jobs.now)) keys.now }
{
    for key in keys {
        if is_missing(jobs, *key) {
            return true;
        }
    }
    false
}

// Whether no job has this key.
fn is_missing(jobs: &Jobs, key: Key) -> bool
    ensures { result ≡ is_none (find (λ j. j.key == key) jobs.now) }
{
    jobs.get(key).is_none()
}
