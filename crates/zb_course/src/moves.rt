// The moves that events show.
ghost use Rattle.std.specs.Prelude.{◌≡◌, ◌==◌, List, [], IsTrue, IsFalse, IsErrOf, IfOk, OnOk, Some, None, false, option_map};
ghost use Rattle.std.specs.List.{find};
ghost use Rattle.zb_views.specs.declared.job.Job.{Job};
ghost use Rattle.zb_model.specs.declared.record.Event.TheVariants as events;
ghost use Rattle.zb_rules.specs.Applies.{may_fit};
ghost use Rattle.zb_tokens.specs.Game.{fits, played};
ghost use Rattle.zb_rules.specs.Shown.{shown_by, after_shown, move_of_cell};
ghost use Rattle.zb_tokens.specs.declared.board.Move.TheVariants as moves;
ghost use Rattle.zb_course.specs.Shows.{may_show};

use std::alloc::{AllocError, Global};
use zb_board::{Game, GameFault};
use zb_game::make as make_move;
use zb_jobs::Jobs;
use zb_model::{
    ElementActivated, ElementActivating, ElementCompleted, Event, IncidentCreated, JobError, Key,
    Model, ProcessDefinition, ProcessEventTriggered, Role, ScopeVariable, SequenceFlowTaken,
    TableFault, TryCopy,
};
use zb_tokens::{
    Assigned, BoxedModel, Deployed, Enter, Incident, Inner, Leave, Move, Open, Start, Take, Thrown,
    Triggered, Undo,
};

/// Makes the move that the event shows, if it shows one. At `NotApplicable`, exactly where it doesn't fit,
/// nothing has changed; after `Memory` the game is only dropped. It costs a copy of the event's texts, its
/// model, which becomes a graph, and its value, and what `zb_game::make` does.
pub fn play(alloc: Global, event: &Event, jobs: &Jobs, game: &mut Game) -> Result<(), TableFault>
    ensures fit { OnOk result (IsTrue (may_fit (shown_by jobs.now event.now) game.old)) }
    ensures played { OnOk result (after_shown game.old (shown_by jobs.now event.now) ≡ Some game.new) }
    ensures illegal { IsErrOf result TableFault.NotApplicable → IsFalse (may_fit (shown_by jobs.now event.now) game.old) }
    ensures kept { IsErrOf result TableFault.NotApplicable → game.new ≡ game.old }
{
    match shown(alloc, event, jobs)? {
        Some(step) => make(alloc, step, game),
        None => Ok(()),
    }
}

/// Whether the event may show a move.
pub fn may_show(event: &Event) -> bool
    ensures shows { result ≡ may_show event.now }
    ensures silent { IsFalse result → (js : List Job) → shown_by js event.now ≡ None }
{
    matches!(
        event,
        Event::ProcessCreated(_)
            | Event::ElementActivating(_)
            | Event::ElementActivated(_)
            | Event::ElementCompleting(_)
            | Event::ElementCompleted(_)
            | Event::ElementTerminating(_)
            | Event::ElementTerminated(_)
            | Event::SequenceFlowTaken(_)
            | Event::VariableCreated(_)
            | Event::VariableUpdated(_)
            | Event::JobCompleted(_)
            | Event::JobErrorThrown(_)
            | Event::ProcessEventTriggered(_)
            | Event::IncidentCreated(_)
            | Event::IncidentResolved(_)
    )
}

// Makes a move, and answers as a table does.
fn make(alloc: Global, shown: Move, game: &mut Game) -> Result<(), TableFault>
    ensures fit { OnOk result (IsTrue (fits game.old shown)) }
    ensures played { OnOk result (played game.old shown ≡ Some game.new) }
    ensures illegal { IsErrOf result TableFault.NotApplicable → IsFalse (fits game.old shown) }
    ensures kept { IsErrOf result TableFault.NotApplicable → game.new ≡ game.old }
{
    match make_move(game, alloc, shown) {
        Ok(()) => Ok(()),
        Err(GameFault::Illegal) => Err(TableFault::NotApplicable),
        Err(GameFault::Memory) => Err(TableFault::Memory),
    }
}

// The move that the event shows, if it shows one.
fn shown(alloc: Global, event: &Event, jobs: &Jobs) -> Result<Option<Move>, AllocError>
    ensures { IfOk result (λ move. move ≡ shown_by jobs.now event.now) }
{
    match event {
        Event::ProcessCreated(process) => stand_of(alloc, process),
        Event::ElementActivating(element) => entry_of(alloc, element),
        Event::ElementActivated(element) => open_of(alloc, element),
        Event::ElementCompleting(key) => Ok(Some(Move::Finish(*key))),
        Event::ElementCompleted(element) => leave_of(alloc, element),
        Event::ElementTerminating(key) => Ok(Some(Move::Halt(*key))),
        Event::ElementTerminated(key) => Ok(Some(Move::Gone(*key))),
        Event::SequenceFlowTaken(flow) => take_of(alloc, flow),
        Event::VariableCreated(variable) => Ok(Some(Move::Assign(assigned(alloc, variable)?))),
        Event::VariableUpdated(variable) => Ok(Some(Move::Update(assigned(alloc, variable)?))),
        Event::JobCompleted(key) => Ok(done_of(*key, jobs)),
        Event::JobErrorThrown(thrown) => throw_of(alloc, thrown, jobs),
        Event::ProcessEventTriggered(told) => trigger_of(alloc, told),
        Event::IncidentCreated(incident) => incident_of(alloc, incident),
        Event::IncidentResolved(incident) => Ok(Some(Move::Repair(incident.key))),
        _ => Ok(None),
    }
}

// The model of a process stands.
fn stand_of(alloc: Global, process: &ProcessDefinition) -> Result<Option<Move>, AllocError>
    ensures { IfOk result (λ move. move ≡ shown_by [] (events.ProcessCreated process.now)) }
{
    let model = boxed_copy(alloc, &process.model)?;
    Ok(Some(Move::Stand(Deployed {
        key: process.key,
        version: process.version,
        model,
    })))
}

// A copy of a model, behind a pointer.
fn boxed_copy(alloc: Global, model: &Model) -> Result<BoxedModel, AllocError>
    ensures { IfOk result (λ boxed. boxed ≡ model.now) }
{
    match model.copy(alloc) {
        Ok(copied) => BoxedModel::new(alloc, copied),
        Err(AllocError) => Err(AllocError),
    }
}

// A root starts, and another cell is entered.
fn entry_of(alloc: Global, element: &ElementActivating) -> Result<Option<Move>, AllocError>
    ensures { IfOk result (λ move. move ≡ shown_by [] (events.ElementActivating element.now)) }
{
    if element.scope == Key::new(0) {
        return Ok(Some(Move::Start(Start {
            key: element.key,
            definition: element.definition,
        })));
    }
    match move_of_cell(alloc, element) {
        Ok(entry) => Ok(Some(entry)),
        Err(AllocError) => Err(AllocError),
    }
}

// A body begins a run, a compensation event runs a handler, or a token enters a node.
fn move_of_cell(alloc: Global, element: &ElementActivating) -> Result<Move, AllocError>
    ensures { IfOk result (λ move. move ≡ move_of_cell element.now element.now.role) }
{
    match element.role {
        Role::Inner => Ok(Move::Inner(Inner {
            key: element.key,
            body: element.scope,
        })),
        Role::Handler => Ok(Move::Undo(Undo {
            key: element.key,
            event: element.scope,
            node: element.node.copy(alloc)?,
        })),
        Role::Plain | Role::Body => Ok(Move::Enter(Enter {
            key: element.key,
            scope: element.scope,
            node: element.node.copy(alloc)?,
            via: element.via.copy(alloc)?,
        })),
    }
}

fn open_of(alloc: Global, element: &ElementActivated) -> Result<Option<Move>, AllocError>
    ensures { IfOk result (λ move. move ≡ shown_by [] (events.ElementActivated element.now)) }
{
    Ok(Some(Move::Open(Open {
        key: element.key,
        items: element.items.copy(alloc)?,
    })))
}

fn leave_of(alloc: Global, element: &ElementCompleted) -> Result<Option<Move>, AllocError>
    ensures { IfOk result (λ move. move ≡ shown_by [] (events.ElementCompleted element.now)) }
{
    Ok(Some(Move::Leave(Leave {
        key: element.key,
        owed: element.owed.copy(alloc)?,
    })))
}

fn trigger_of(alloc: Global, told: &ProcessEventTriggered) -> Result<Option<Move>, AllocError>
    ensures { IfOk result (λ move. move ≡ shown_by [] (events.ProcessEventTriggered told.now)) }
{
    Ok(Some(Move::Trigger(Triggered {
        cell: told.cell,
        node: told.node.copy(alloc)?,
    })))
}

fn take_of(alloc: Global, taken: &SequenceFlowTaken) -> Result<Option<Move>, AllocError>
    ensures { IfOk result (λ move. move ≡ shown_by [] (events.SequenceFlowTaken taken.now)) }
{
    Ok(Some(Move::Take(Take {
        key: taken.key,
        flow: taken.flow.copy(alloc)?,
    })))
}

// What a variable gets in a scope.
fn assigned(alloc: Global, variable: &ScopeVariable) -> Result<Assigned, AllocError>
    ensures { IfOk result (λ assigned. assigned ≡ record { scope = variable.now.scope; name = variable.now.name; value = variable.now.value }) }
{
    Ok(Assigned {
        scope: variable.scope,
        name: variable.name.copy(alloc)?,
        value: variable.value.copy(alloc)?,
    })
}

// The work of a job's cell is done.
fn done_of(key: Key, jobs: &Jobs) -> Option<Move>
    ensures { result ≡ option_map (λ j. moves.Done j.cell) (find (λ j. j.key == key) jobs.now) }
{
    match jobs.get(key) {
        Some(job) => Some(Move::Done(job.cell)),
        None => None,
    }
}

// An error is thrown in it.
fn throw_of(alloc: Global, thrown: &JobError, jobs: &Jobs) -> Result<Option<Move>, AllocError>
    ensures { IfOk result (λ move. move
        ≡ option_map (λ j. moves.Throw (record { cell = j.cell; code = thrown.now.code })) (find (λ j. j.key == thrown.now.key) jobs.now)) }
{
    match jobs.get(thrown.key) {
        Some(job) => Ok(Some(Move::Throw(Thrown {
            cell: job.cell,
            code: thrown.code.copy(alloc)?,
        }))),
        None => Ok(None),
    }
}

fn incident_of(alloc: Global, made: &IncidentCreated) -> Result<Option<Move>, AllocError>
    ensures { IfOk result (λ move. move ≡ shown_by [] (events.IncidentCreated made.now)) }
{
    Ok(Some(Move::Incident(Incident {
        key: made.key,
        kind: made.kind,
        cell: made.cell,
        job: made.job,
        text: made.text.copy(alloc)?,
    })))
}
