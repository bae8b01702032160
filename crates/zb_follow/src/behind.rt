// An event, and those behind it.
ghost use Rattle.std.specs.Prelude.{◌≡◌, ℕ, List, IfOk};
ghost use Rattle.zb_model.specs.declared.record.Event.{Event};
ghost use Rattle.zb_rules.specs.Behind.{repair_event, job_made_on, resolved_on, ended_on, halted_on, interrupted_on, events_behind, with_events_behind};
ghost use Rattle.zb_rules.specs.Starts.{started_behind};
ghost use Rattle.zb_state.specs.State.{partition_of, IsStateOf};
ghost use Rattle.zb_follow.specs.Behind.{made_behind, job_canceled, ended_with, restarted};

use crate::assigning::RunSet;
use crate::catches::{ClosedCatches, OpenedCatches};
use crate::making::{Find, Found, Maker};
use crate::starting::{Restarted, copied};
use std::alloc::{AllocError, Global};
use zb_game::is_interrupting;
use zb_model::{Event, IncidentResolved, JobCreated, Key, Moment, TryCopy};
use zb_state::{Out, Refusal, State};
use zb_tokens::{Incident, Triggered};
use zb_values::work_at;
use zb_views::Started;

/// An event, and those behind it. It costs what `Out::put` does for each; where a cell begins what `RunSet` does, where it
/// becomes active what `work_at` and `openings_at` do, where it begins to complete what `ClosedCatches` does, and where it
/// begins to terminate what that, `Jobs::on` and `Game::incident_on` do; where a node's event has come about what
/// `is_interrupting` does too, and where an instance ends what `State::started` and `Restarted` do.
#[derive(Drop)]
pub struct WithBehind(pub Event);

impl Maker for WithBehind {
    ghost making = { λ it p moment. with_events_behind p moment it.0 };

    ghost least = { 1 };

    fn put(
        self,
        alloc: Global,
        state: &mut State,
        moment: Moment,
        out: &mut Out,
    ) -> Result<(), Refusal> {
        let WithBehind(event) = self;
        match behind_of(alloc, state, &event) {
            Ok(behind) => (event, behind).put(alloc, state, moment, out),
            Err(AllocError) => {
                drop(event);
                Err(Refusal::Memory)
            }
        }
    }
}

/// What comes behind an event.
#[derive(Drop)]
pub enum Behind {
    Nothing,
    /// The cell that begins may be a run of a body, which has its variables set.
    Begin(Key),
    /// The cell that becomes active may have a job, and what it waits for.
    Work(Key),
    /// The cell begins to complete, and what it waited for closes.
    Close(Key),
    /// The cell begins to terminate, and what waits for it ends.
    End(Ended),
    /// The event of a node has come about for a cell, which it may interrupt.
    Interrupt(Triggered),
    /// An instance has ended that a message with a correlation key had started.
    Restart(Started),
}

// What comes behind this event, which is to be put.
fn behind_of(alloc: Global, state: &State, event: &Event) -> Result<Behind, AllocError>
    ensures { IfOk result (λ behind. (p moment : ℕ) (seen es : List Event) → IsStateOf seen state.now
        → events_behind p moment seen event.now es ≡ made_behind p moment behind es) }
{
    match event {
        Event::ElementActivating(element) => Ok(Behind::Begin(element.key)),
        Event::ElementActivated(element) => Ok(Behind::Work(element.key)),
        Event::ElementCompleting(cell) => Ok(Behind::Close(*cell)),
        Event::ElementTerminating(cell) => Ok(Behind::End(waiting_for(state, *cell))),
        Event::ProcessEventTriggered(told) => Ok(Behind::Interrupt(Triggered {
            cell: told.cell,
            node: told.node.copy(alloc)?,
        })),
        Event::ElementCompleted(element) => restart_of(alloc, state, element.key),
        Event::ElementTerminated(cell) => restart_of(alloc, state, *cell),
        _ => Ok(Behind::Nothing),
    }
}

// What comes behind the end of a cell, which is to be put: where it is an instance that a message with a correlation key
// has started, the next one may start.
fn restart_of(alloc: Global, state: &State, cell: Key) -> Result<Behind, AllocError>
    ensures { IfOk result (λ behind. (p moment : ℕ) (seen es : List Event) → IsStateOf seen state.now
        → started_behind p seen cell es ≡ made_behind p moment behind es) }
{
    match state.started(cell) {
        Some(started) => Ok(Behind::Restart(copied(alloc, started)?)),
        None => Ok(Behind::Nothing),
    }
}

impl Maker for Behind {
    ghost making = { λ behind p moment. made_behind p moment behind };

    fn put(
        self,
        alloc: Global,
        state: &mut State,
        moment: Moment,
        out: &mut Out,
    ) -> Result<(), Refusal> {
        match self {
            Behind::Nothing => Ok(()),
            Behind::Begin(cell) => RunSet(cell).put(alloc, state, moment, out),
            Behind::Work(cell) => {
                (Found(JobOf(cell)), OpenedCatches(cell)).put(alloc, state, moment, out)
            }
            Behind::Close(cell) => ClosedCatches(cell).put(alloc, state, moment, out),
            Behind::End(waiting) => waiting.put(alloc, state, moment, out),
            Behind::Interrupt(told) => Interrupted(told).put(alloc, state, moment, out),
            Behind::Restart(started) => Restarted(started).put(alloc, state, moment, out),
        }
    }
}

// A cell begins to terminate, if the event of a node that has come about for it interrupts it.
#[derive(Drop)]
struct Interrupted(Triggered);

impl Maker for Interrupted {
    ghost making = { λ it p moment. interrupted_on it.0.cell it.0.node };

    fn put(
        self,
        alloc: Global,
        state: &mut State,
        moment: Moment,
        out: &mut Out,
    ) -> Result<(), Refusal> {
        let Interrupted(told) = self;
        let cell = told.cell;
        let interrupts = is_interrupting(state.game(), cell, told.node.as_str());
        if interrupts {
            return Halted(cell).put(alloc, state, moment, out);
        }
        Ok(())
    }
}

// A cell begins to terminate, and what waits for it ends.
#[derive(Drop)]
struct Halted(Key);

impl Maker for Halted {
    ghost making = { λ it p moment. halted_on it.0 };

    fn put(
        self,
        alloc: Global,
        state: &mut State,
        moment: Moment,
        out: &mut Out,
    ) -> Result<(), Refusal> {
        let waiting = waiting_for(state, self.0);
        (Event::ElementTerminating(self.0), waiting).put(alloc, state, moment, out)
    }
}

/// What waits for a cell ends: the job that it had is canceled, then its timers and subscriptions close, and then the
/// incident on it is resolved.
#[derive(Drop)]
pub struct Ended {
    pub cell: Key,
    pub job: Option<Key>,
}

// What waits for a cell that is to begin to terminate.
fn waiting_for(state: &State, cell: Key) -> Ended
    ensures { (seen es : List Event) → IsStateOf seen state.now → ended_on seen cell es ≡ ended_with result.cell result.job es }
{
    Ended {
        cell,
        job: state.jobs().on(cell),
    }
}

impl Maker for Ended {
    ghost making = { λ it p moment. ended_with it.cell it.job };

    fn put(
        self,
        alloc: Global,
        state: &mut State,
        moment: Moment,
        out: &mut Out,
    ) -> Result<(), Refusal> {
        let Ended { cell, job } = self;
        (
            Found(CanceledJob(job)),
            (ClosedCatches(cell), Found(ResolvedOn(cell))),
        )
            .put(alloc, state, moment, out)
    }
}

// The job of a cell is made, if the cell is to have one: by the type and the tries of its node.
#[derive(Drop)]
struct JobOf(Key);

impl Find for JobOf {
    ghost finds = { λ it p. job_made_on p it.0 };

    fn find(self, alloc: Global, state: &State) -> Result<Option<Event>, AllocError> {
        let Some(node) = work_at(state.game(), self.0) else {
            return Ok(None);
        };
        Ok(Some(Event::JobCreated(JobCreated {
            key: state.next_key(),
            cell: self.0,
            kind: node.name.copy(alloc)?,
            retries: node.retries,
        })))
    }
}

// A job is canceled, if there is one.
#[derive(Drop)]
struct CanceledJob(Option<Key>);

impl Find for CanceledJob {
    ghost finds = { λ it p. job_canceled it.0 };

    fn find(self, _alloc: Global, _state: &State) -> Result<Option<Event>, AllocError> {
        match self.0 {
            Some(job) => Ok(Some(Event::JobCanceled(job))),
            None => Ok(None),
        }
    }
}

// The incident on a cell is resolved, if one stands there.
#[derive(Drop)]
struct ResolvedOn(Key);

impl Find for ResolvedOn {
    ghost finds = { λ it p. resolved_on it.0 };

    fn find(self, _alloc: Global, state: &State) -> Result<Option<Event>, AllocError> {
        match state.game().incident_on(self.0) {
            Some(incident) => Ok(Some(repair_event(incident))),
            None => Ok(None),
        }
    }
}

/// The event by which an incident is resolved.
pub fn repair_event(incident: &Incident) -> Event
    ensures { result ≡ repair_event incident.now }
{
    Event::IncidentResolved(IncidentResolved {
        key: incident.key,
        job: incident.job,
    })
}
