ghost use Rattle.std.specs.Prelude.{◌≡◌, ◌↔◌, ◌==◌, ◌&&◌, ◌<◌, ◌+◌, ◌^◌, not, ℕ, List, [], ◌∷◌, ◌++◌, IsTrue, IsFalse, IsErrOf, IfOk, OnOk, Some, None, is_none, option_map};
ghost use Rattle.std.specs.Option.{option_map_or};
ghost use Rattle.zb_base.specs.Key.{key_of};
ghost use Rattle.zb_model.specs.declared.record.Event.{Event};
ghost use Rattle.zb_views.specs.View.{next_key};
ghost use Rattle.zb_views.specs.Messages.{buffered};
ghost use Rattle.zb_views.specs.Jobs as views;
ghost use Rattle.zb_views.specs.Timers as timer_views;
ghost use Rattle.zb_views.specs.Left.{left_told};
ghost use Rattle.zb_views.specs.declared.left.Left.TheVariants as lefts;
ghost use Rattle.zb_views.specs.Distributions.{is_distributed, is_distributed_to};
ghost use Rattle.zb_views.specs.Definitions.{definitions};
ghost use Rattle.zb_definitions.specs.Kept.{KeepsDefinitions};
ghost use Rattle.zb_rules.specs.Applies.{applies, holds_own, holds_of_game, has_cell, is_fresh, has_definition};
ghost use Rattle.zb_rules.specs.JobEvents.{has_cause};
ghost use Rattle.zb_base.specs.Vars.{is_ascending};
ghost use Rattle.zb_faults.specs.Faults.{is_well_formed};
ghost use Rattle.zb_rules.specs.Settling.{turn_of, turn_with, HasQuietGame};
ghost use Rattle.zb_rules.specs.Continue.{is_quiet};
ghost use Rattle.zb_rules.specs.Sound.{HasKeys};
ghost use Rattle.zb_tokens.specs.Board.{Board};
ghost use Rattle.zb_tokens.specs.Forced.{next_mover};
ghost use Rattle.zb_rules.specs.Shown.{shown, after_shown, board_of};
ghost use Rattle.zb_state.specs.Sound.{HasSoundModel};
ghost use Rattle.zb_subscriptions.specs.Opened.{is_new};
ghost use Rattle.zb_tables.specs.Tables.{IsNext, Draws, are_all_below, are_waiting_below};
ghost use Rattle.zb_state.specs.Starts.{BeginsRoot, IsChangeOf, root_left, root_told, are_starts_below};

mod cells;
mod jobs;
mod starts;
mod subscriptions;
mod timers;
mod waiting;

use std::alloc::{AllocError, Global};
use zb_check::{ModelFault, check};
use zb_course::Course;
use zb_jobs::Jobs;
use zb_model::{
    Event, IncidentCreated, Key, MessagePublished, Model as ProcessModel, PartitionId, TableFault,
};
use zb_starts::Change;
use zb_tables::{Messages, Tables, greatest_counter_of};
use zb_tokens::Mover;
use zb_values::phase_of;
use zb_views::{Begun, Left};

/// What the events of a partition's log come to, as they are read. Its clauses hold for all lists of events of which they
/// are the facts.
#[derive(Drop)]
pub struct Facts {
    pub(crate) place: PartitionId,
    // The greatest counter of the keys that the events name.
    pub(crate) counter: u64,
    pub(crate) messages: Messages,
    pub(crate) tables: Tables,
    // What the last event left to be said.
    pub(crate) left: Left,
    pub(crate) game: Course,
    ghost drawn: { counter < 2 ^ 51 },
    ghost in_order: { IsTrue (are_all_below (key_of place (counter + 1)) messages tables.jobs tables.timers) },
    ghost waiting: { IsTrue (are_waiting_below (key_of place (counter + 1)) tables.process_subscriptions) },
    ghost begun: { IsTrue (are_starts_below (key_of place (counter + 1)) left tables.starts.starts) },
}

impl Facts {
    ghost use Rattle.zb_state.specs.State.{partition_of, IsStateOf, IsSameBeside, HasTaken, HasTakenRows};

    /// The facts of a log without events.
    pub fn empty(alloc: Global, place: PartitionId) -> Facts
        ensures place { partition_of result ≡ place }
        ensures state { IsStateOf [] result }
    {
        Facts {
            place,
            counter: 0,
            messages: Messages::empty(alloc),
            tables: Tables::empty(alloc),
            left: Left::Nothing,
            game: Course::empty(alloc),
        }
    }

    /// Takes in an event that applies to those before it. At `NotApplicable`, exactly where it doesn't,
    /// nothing has changed; after `Memory` the facts are only dropped. A message costs its copy; one that expires
    /// costs the logarithm of how many are buffered, on average. An event of the game costs
    /// what `zb_game::make` does; a model costs its check and its copies.
    /// A model that is known to have no fault isn't looked at again.
    pub(crate) fn apply_as(
        &mut self,
        alloc: Global,
        event: &Event,
        known: bool,
    ) -> Result<(), TableFault>
        requires { IsTrue known → HasSoundModel event.now }
        ensures place { partition_of self.new ≡ partition_of self.old }
        ensures applied { (es : List Event) → IsStateOf es self.old → OnOk result (IsTrue (applies (partition_of self.old) es event.now)) }
        ensures state { (es : List Event) → IsStateOf es self.old → OnOk result (IsStateOf (es ++ event.now ∷ []) self.new) }
        ensures refused { (es : List Event) → IsStateOf es self.old
            → IsErrOf result TableFault.NotApplicable → IsFalse (applies (partition_of self.old) es event.now) }
        ensures kept { IsErrOf result TableFault.NotApplicable → self.new ≡ self.old }
        ensures rows { OnOk result (HasTakenRows event.now self.old self.new) }
    {
        let change = self.admit(alloc, event, known)?;
        self.follow(alloc, event, change)?;
        self.messages.apply(alloc, event)?;
        Ok(())
    }

    /// Takes in an event as `apply_as` does, and moves its message in place of a copy.
    pub fn take_in(&mut self, alloc: Global, event: Event) -> Result<(), TableFault>
        ensures place { partition_of self.new ≡ partition_of self.old }
        ensures applied { (es : List Event) → IsStateOf es self.old → OnOk result (IsTrue (applies (partition_of self.old) es event)) }
        ensures state { (es : List Event) → IsStateOf es self.old → OnOk result (IsStateOf (es ++ event ∷ []) self.new) }
        ensures refused { (es : List Event) → IsStateOf es self.old
            → IsErrOf result TableFault.NotApplicable → IsFalse (applies (partition_of self.old) es event) }
        ensures kept { IsErrOf result TableFault.NotApplicable → self.new ≡ self.old }
    {
        let change = match self.admit(alloc, &event, false) {
            Ok(change) => change,
            Err(fault) => {
                drop(event);
                return Err(fault);
            }
        };
        match self.follow(alloc, &event, change) {
            Ok(()) => {}
            Err(AllocError) => {
                drop(event);
                return Err(TableFault::Memory);
            }
        }
        self.messages.take(event)?;
        Ok(())
    }

    /// The key behind the greatest one so far.
    pub(crate) fn fresh(&self) -> Key
        ensures { result ≡ key_of (partition_of self.now) (self.now.counter + 1) }
    {
        let place = u64::from(self.place.number());
        Key::new(place * Key::COUNTERS + self.counter + 1)
    }

    /// Leaves no messages, no jobs and no timers; after want of memory, when the facts are only dropped.
    pub(crate) fn clear(&mut self, alloc: Global)
        ensures place { partition_of self.new ≡ partition_of self.old }
        ensures messages { self.new.messages ≡ [] }
        ensures jobs { self.new.tables.jobs ≡ [] }
        ensures timers { self.new.tables.timers ≡ [] }
    {
        self.messages.clear(alloc);
        self.tables.clear_listed(alloc);
    }

    /// Who moves next; `None` where the game is quiet. It costs what `zb_game::next_mover` does, and nothing where nobody
    /// was forced when it was last asked and no move was made since.
    pub(crate) fn next_mover(&mut self, alloc: Global) -> Result<Option<Mover>, AllocError>
        ensures mover { (es : List Event) (b : Board) → IsStateOf es self.new → board_of es ≡ Some b → IfOk result (λ mover. mover ≡ next_mover b) }
        ensures kept { self.new ≡ self.old }
    {
        self.game.next_mover(alloc)
    }

    // Whether the key is the next one that the partition draws, and there is one.
    fn is_fresh(&self, key: Key) -> bool
        ensures fresh { (es : List Event) → IsStateOf es self.now → result ≡ is_fresh (partition_of self.now) es key }
        ensures next { IsTrue result → IsNext (partition_of self.now) self.now.counter key }
    {
        self.counter + 1 < Key::COUNTERS && key == self.fresh()
    }

    // Whether a cell has this key.
    fn has_cell(&self, key: Key) -> bool
        ensures { (es : List Event) → IsStateOf es self.now → result ≡ holds_of_game (has_cell key) es }
    {
        phase_of(self.game.board(), key).is_some()
    }

    // Whether a definition has this key.
    fn has_definition(&self, key: Key) -> bool
        ensures { (es : List Event) → IsStateOf es self.now → result ≡ has_definition key es }
    {
        self.game.definitions().contains(key)
    }

    // Whether a message comes under the next key. The names of its variables ascend, as those of all `Vars` do.
    fn publishes(&self, message: &MessagePublished) -> bool
        ensures own { (es : List Event) → IsStateOf es self.now
            → result ≡ (is_fresh (partition_of self.now) es message.now.key && is_ascending message.now.variables) }
        ensures next { IsTrue result → IsNext (partition_of self.now) self.now.counter message.now.key }
    {
        let _ = message.variables.as_slice();
        self.is_fresh(message.key)
    }

    // Whether the event meets its own condition, beside the move that it shows. The events of the last arm are
    // made by no command so far.
    fn meets_own(&self, alloc: Global, event: &Event, known: bool) -> Result<bool, AllocError>
        requires { IsTrue known → HasSoundModel event.now }
        ensures own { (es : List Event) → IsStateOf es self.now → IfOk result (λ meets. meets ≡ holds_own (partition_of self.now) es event.now) }
        ensures draws { IfOk result (λ meets. IsTrue meets → Draws (partition_of self.now) self.now.counter self.now.tables.jobs event.now) }
        ensures opens { IfOk result (λ meets. IsTrue meets → IsTrue (is_new self.now.tables.subscriptions event.now)) }
    {
        match event {
            Event::ProcessCreated(process) => is_sound(alloc, &process.model, known),
            Event::DeploymentCreated(made) | Event::ProcessInstanceCreationCreated(made) => {
                Ok(self.names_definition(made.key, made.definition))
            }
            Event::MessageStartEventSubscriptionCorrelated(start) => Ok(self.starts(start)),
            Event::ElementActivating(element) => Ok(self.begins_well(element)),
            Event::ElementActivated(_)
            | Event::ElementCompleting(_)
            | Event::ElementCompleted(_)
            | Event::ElementTerminating(_)
            | Event::ElementTerminated(_)
            | Event::SequenceFlowTaken(_)
            | Event::VariableCreated(_)
            | Event::VariableUpdated(_)
            | Event::ProcessEventTriggered(_) => Ok(true),
            Event::VariableDocumentUpdated(scope) => Ok(self.has_cell(*scope)),
            Event::IncidentCreated(incident) => Ok(self.begins_incident(incident)),
            Event::IncidentResolved(incident) => Ok(self.is_cause_of(incident.job, incident.key)),
            Event::JobCreated(job) => Ok(self.makes_job(job)),
            Event::JobActivated(given) => Ok(self.hands_out(given)),
            Event::JobTimedOut(key) => Ok(self.has_activated(*key)),
            Event::JobCompleted(key) => Ok(self.has_given_out(*key)),
            Event::JobCanceled(key) => Ok(self.left.leaves_cancel(*key)),
            Event::TimerCreated(timer) => Ok(self.opens_timer(timer)),
            Event::TimerTriggered(key) | Event::TimerCanceled(key) => Ok(self.has_timer(*key)),
            Event::JobFailed(failed) => Ok(self.has_given_out(failed.key)),
            Event::JobErrorThrown(thrown) => Ok(self.has_given_out(thrown.key)),
            Event::JobRetriesUpdated(updated) => Ok(self.has_job(updated.key)),
            Event::JobBatchActivated(batch) => {
                Ok(self.is_fresh(batch.key) && self.are_jobs(batch.jobs.as_slice()))
            }
            Event::MessagePublished(message) => Ok(self.publishes(message)),
            Event::MessageExpired(key) => Ok(self.messages.deadline_of(*key).is_some()),
            Event::MessageSubscriptionCreated(opened) => {
                Ok(!self.is_subscribed(opened.subscription))
            }
            Event::MessageSubscriptionCorrelating(begun) => { Ok(self.begins_correlating(begun)) }
            Event::MessageSubscriptionCorrelated(told) | Event::MessageSubscriptionRejected(told) =>
                { Ok(self.is_correlating(told.subscription, told.message)) }
            Event::MessageSubscriptionDeleted(key) => {
                Ok(self.is_subscribed(*key) || self.left.leaves_deletion(*key))
            }
            Event::CommandDistributionDistributing(sent) => Ok(self.has_definition(sent.key)),
            Event::CommandDistributionAcknowledged(told) => {
                Ok(self.is_distributed_to(told.key, told.partition))
            }
            Event::CommandDistributionFinished(key) => Ok(self.has_arrived(*key)),
            Event::ProcessMessageSubscriptionCreating(opened) => Ok(self.subscribes(opened)),
            Event::ProcessMessageSubscriptionCreated(key) => Ok(self.is_being_created(*key)),
            Event::ProcessMessageSubscriptionCorrelated(told) => {
                Ok(self.is_open(told.subscription))
            }
            Event::ProcessMessageSubscriptionDeleted(key) => Ok(self.is_being_deleted(*key)),
            Event::ProcessMessageSubscriptionDeleting(closing) => {
                Ok(self.is_open(closing.subscription))
            }
            Event::ElementMigrated(_) | Event::ProcessInstanceMigrationMigrated(_) => Ok(false),
        }
    }

    // Whether the key is fresh, and the definition is there.
    fn names_definition(&self, key: Key, definition: Key) -> bool
        ensures own { (es : List Event) → IsStateOf es self.now
            → result ≡ (is_fresh (partition_of self.now) es key && has_definition definition es) }
        ensures next { IsTrue result → IsNext (partition_of self.now) self.now.counter key }
    {
        self.is_fresh(key) && self.has_definition(definition)
    }

    // Whether the definition is there, and on its way to no partition.
    fn has_arrived(&self, definition: Key) -> bool
        ensures { (es : List Event) → IsStateOf es self.now
            → result ≡ (has_definition definition es && not (is_distributed definition es)) }
    {
        self.has_definition(definition) && !self.is_distributed(definition)
    }

    // Whether the key of an incident is fresh, and a job its cause where it tells of one.
    fn begins_incident(&self, incident: &IncidentCreated) -> bool
        ensures { (es : List Event) → IsStateOf es self.now
            → result ≡ (is_fresh (partition_of self.now) es incident.now.key && has_cause incident.now es) }
    {
        self.is_fresh(incident.key) && self.has_cause(incident)
    }

    /// Whether this definition is on its way to this partition. It costs what `Outbox::is_sent_to` does.
    pub(crate) fn is_distributed_to(&self, definition: Key, partition: u32) -> bool
        ensures { (es : List Event) → IsStateOf es self.now → result ≡ is_distributed_to definition partition es }
    {
        self.tables.sendings.is_sent_to(definition, partition)
    }

    /// Whether this definition is on its way to some partition. It costs what `Outbox::is_sent` does.
    pub(crate) fn is_distributed(&self, definition: Key) -> bool
        ensures { (es : List Event) → IsStateOf es self.now → result ≡ is_distributed definition es }
    {
        self.tables.sendings.is_sent(definition)
    }

    // What an event that applies changes of locks and of instances that messages have started; its move is made. At
    // `NotApplicable`, exactly where it doesn't apply, nothing has changed; after `Memory` the state is only dropped.
    fn admit(&mut self, alloc: Global, event: &Event, known: bool) -> Result<Change, TableFault>
        requires { IsTrue known → HasSoundModel event.now }
        ensures beside { IsSameBeside self.old self.new }
        ensures applied { (es : List Event) → IsStateOf es self.old → OnOk result (IsTrue (applies (partition_of self.old) es event.now)) }
        ensures played { (es : List Event) → IsStateOf es self.old → OnOk result (after_shown self.old.game (shown es event.now) ≡ Some self.new.game) }
        ensures draws { OnOk result (Draws (partition_of self.new) self.new.counter self.new.tables.jobs event.now) }
        ensures opens { OnOk result (IsTrue (is_new self.new.tables.subscriptions event.now)) }
        ensures begins { IfOk result (λ change. BeginsRoot self.new.left change) }
        ensures changes { (es : List Event) → IsStateOf es self.old → IfOk result (IsChangeOf es event.now) }
        ensures refused { (es : List Event) → IsStateOf es self.old
            → IsErrOf result TableFault.NotApplicable → IsFalse (applies (partition_of self.old) es event.now) }
        ensures kept { IsErrOf result TableFault.NotApplicable → self.new ≡ self.old }
    {
        let change = self.change_of(alloc, event)?;
        match self.play(alloc, event, known) {
            Ok(()) => Ok(change),
            Err(fault) => {
                drop(change);
                Err(fault)
            }
        }
    }

    // Makes the move of an event that applies. At `NotApplicable`, exactly where it doesn't, nothing has
    // changed; after `Memory` the state is only dropped.
    fn play(&mut self, alloc: Global, event: &Event, known: bool) -> Result<(), TableFault>
        requires { IsTrue known → HasSoundModel event.now }
        ensures beside { IsSameBeside self.old self.new }
        ensures applied { (es : List Event) → IsStateOf es self.old → OnOk result (IsTrue (applies (partition_of self.old) es event.now)) }
        ensures played { (es : List Event) → IsStateOf es self.old → OnOk result (after_shown self.old.game (shown es event.now) ≡ Some self.new.game) }
        ensures draws { OnOk result (Draws (partition_of self.new) self.new.counter self.new.tables.jobs event.now) }
        ensures opens { OnOk result (IsTrue (is_new self.new.tables.subscriptions event.now)) }
        ensures refused { (es : List Event) → IsStateOf es self.old
            → IsErrOf result TableFault.NotApplicable → IsFalse (applies (partition_of self.old) es event.now) }
        ensures kept { IsErrOf result TableFault.NotApplicable → self.new ≡ self.old }
    {
        if !self.meets_own(alloc, event, known)? {
            return Err(TableFault::NotApplicable);
        }
        self.game.play(alloc, event, &self.tables.jobs)
    }

    // Takes in what an event says, but for its move and of messages. After a refusal the state is only dropped.
    fn follow(&mut self, alloc: Global, event: &Event, change: Change) -> Result<(), AllocError>
        requires draws { Draws (partition_of self.old) self.old.counter self.old.tables.jobs event.now }
        requires opens { IsTrue (is_new self.old.tables.subscriptions event.now) }
        requires begins { BeginsRoot self.old.left change }
        ensures place { partition_of self.new ≡ partition_of self.old }
        ensures taken { OnOk result (HasTaken event.now change self.old.messages self.old self.new) }
    {
        self.left = left_behind(&self.tables.jobs, event);
        self.counter = self.counter.max(greatest_counter_of(self.place, event));
        self.tables.apply(alloc, event, change)
    }
}

// What an event leaves to be said behind those by which these jobs are there.
fn left_behind(jobs: &Jobs, event: &Event) -> Left
    ensures told { (before : List Event) → views.jobs before ≡ jobs.now → result ≡ left_told before event.now }
    ensures root { root_left result ≡ root_told event.now }
{
    match event {
        Event::ProcessInstanceCreationCreated(instance) => Left::Root(Begun {
            key: instance.key,
            definition: instance.definition,
            message: None,
        }),
        Event::MessageStartEventSubscriptionCorrelated(start) => Left::Root(Begun {
            key: start.instance,
            definition: start.definition,
            message: Some(start.message),
        }),
        Event::ElementTerminating(cell) => cancels(jobs.on(*cell)),
        Event::MessageSubscriptionRejected(told) => Left::Deletes(told.subscription),
        _ => Left::Nothing,
    }
}

// That a job is canceled is left to be said, if there is one.
fn cancels(job: Option<Key>) -> Left
    ensures told { result ≡ option_map_or (λ key. lefts.Cancels key) job lefts.Nothing }
    ensures root { root_left result ≡ None }
{
    match job {
        Some(job) => Left::Cancels(job),
        None => Left::Nothing,
    }
}

// Whether the model has no fault. Where that is known it isn't looked at.
fn is_sound(alloc: Global, model: &ProcessModel, known: bool) -> Result<bool, AllocError>
    requires { IsTrue known → IsTrue (is_well_formed model.now) }
    ensures { IfOk result (λ sound. sound ≡ is_well_formed model.now) }
{
    if known {
        return Ok(true);
    }
    let checked = check(alloc, model);
    let sound = match &checked {
        Ok(()) => Ok(true),
        Err(ModelFault::Bad { .. }) => Ok(false),
        Err(ModelFault::Memory) => Err(AllocError),
    };
    drop(checked);
    sound
}
