// The events that show forced moves.
ghost use Rattle.std.specs.Prelude.{◌≡◌, IfOk};
ghost use Rattle.zb_rules.specs.Shown.{event_of, role_on};
ghost use Rattle.zb_tokens.specs.declared.board.Move.TheVariants as moves;

use std::alloc::{AllocError, Global};
use zb_board::{Game, role_at};
use zb_model::{
    ElementActivated, ElementActivating, ElementCompleted, Event, IncidentCreated,
    ProcessEventTriggered, Role, SequenceFlowTaken, Text, TryCopy,
};
use zb_tokens::{Cell, Enter, Inner, Move, Undo};

/// The event that shows a forced move; `None` of a move that is never forced. Of a cell that begins it costs what
/// `Game::cell` and `Game::model` do, and of a run of a body a copy of the body's node.
pub fn event_of(alloc: Global, shown: Move, game: &Game) -> Result<Option<Event>, AllocError>
    ensures { IfOk result (λ event. event ≡ event_of game.now shown) }
{
    match shown {
        Move::Enter(entry) => Ok(entered(alloc, entry, game)),
        Move::Inner(run) => begun(alloc, run, game),
        Move::Undo(undo) => Ok(undone(alloc, undo, game)),
        Move::Open(opened) => Ok(Some(Event::ElementActivated(ElementActivated {
            key: opened.key,
            items: opened.items,
        }))),
        Move::Finish(key) => Ok(Some(Event::ElementCompleting(key))),
        Move::Halt(key) => Ok(Some(Event::ElementTerminating(key))),
        Move::Gone(key) => Ok(Some(Event::ElementTerminated(key))),
        Move::Leave(leave) => Ok(Some(Event::ElementCompleted(ElementCompleted {
            key: leave.key,
            owed: leave.owed,
        }))),
        Move::Take(take) => Ok(Some(Event::SequenceFlowTaken(SequenceFlowTaken {
            key: take.key,
            flow: take.flow,
        }))),
        Move::Trigger(told) => Ok(Some(Event::ProcessEventTriggered(ProcessEventTriggered {
            cell: told.cell,
            node: told.node,
        }))),
        Move::Incident(incident) => Ok(Some(Event::IncidentCreated(IncidentCreated {
            key: incident.key,
            kind: incident.kind,
            cell: incident.cell,
            job: incident.job,
            text: incident.text,
        }))),
        _ => Ok(None),
    }
}

// A token enters a node, in the role that this tells.
fn entered(alloc: Global, entry: Enter, game: &Game) -> Option<Event>
    ensures { result ≡ event_of game.now (moves.Enter entry) }
{
    let scope = game.cell(entry.scope)?;
    let role = role_on(game, scope, entry.node.as_str());
    Some(Event::ElementActivating(ElementActivating {
        key: entry.key,
        scope: entry.scope,
        definition: scope.definition,
        node: entry.node,
        role,
        via: entry.via,
        started: Text::empty(alloc),
    }))
}

// A body begins a run, at its own node.
fn begun(alloc: Global, run: Inner, game: &Game) -> Result<Option<Event>, AllocError>
    ensures { IfOk result (λ event. event ≡ event_of game.now (moves.Inner run)) }
{
    let Some(body) = game.cell(run.body) else {
        return Ok(None);
    };
    Ok(Some(Event::ElementActivating(ElementActivating {
        key: run.key,
        scope: run.body,
        definition: body.definition,
        node: body.node.copy(alloc)?,
        role: Role::Inner,
        via: Text::empty(alloc),
        started: Text::empty(alloc),
    })))
}

// A compensation event runs a handler.
fn undone(alloc: Global, undo: Undo, game: &Game) -> Option<Event>
    ensures { result ≡ event_of game.now (moves.Undo undo) }
{
    let event = game.cell(undo.event)?;
    Some(Event::ElementActivating(ElementActivating {
        key: undo.key,
        scope: undo.event,
        definition: event.definition,
        node: undo.node,
        role: Role::Handler,
        via: Text::empty(alloc),
        started: Text::empty(alloc),
    }))
}

/// The role of a cell that a token begins at a node in a scope, by the model of that. It costs what `Game::model` does.
pub fn role_on(game: &Game, scope: &Cell, node: &str) -> Role
    ensures { result ≡ role_on game.now scope.now node.now }
{
    match game.model(scope.definition) {
        Some(model) => role_at(model, node),
        None => Role::Plain,
    }
}
