// What keeps a cell from going on, and the incidents that tell of it.
ghost use Rattle.std.specs.Prelude.{◌≡◌, Result, IfOk};
ghost use Rattle.std.specs.Result.{result_map_both};
ghost use Rattle.zb_instance_records.specs.declared.happening.IncidentKind.TheVariants as kinds;
ghost use Rattle.zb_process.specs.Expr.{ValueFault};
ghost use Rattle.zb_expr.specs.Outcome.{Evaluates};
ghost use Rattle.zb_tokens.specs.Incidents.{error_hindrance, hindrance_of};
ghost use Rattle.zb_tokens.specs.Catches.{time_hindrance};
ghost use Rattle.zb_tokens.specs.Forced.{stop_by};

use std::alloc::{AllocError, Global};
use std::marker::Model;
use zb_base::{Key, Moment, Text};
use zb_duration::DueFault;
use zb_expr::EvalFault;
use zb_instance_records::IncidentKind;
use zb_process::Node;
use zb_tokens::{Cell, Incident, Move};

/// What keeps a cell from going on: the kind of the incident that tells of it, and its text.
#[derive(Drop)]
pub struct Hindrance {
    kind: IncidentKind,
    text: Text,
}

impl Model for Hindrance {
    ghost use Rattle.zb_tokens.specs.Incidents.{Hindrance};

    ghost Value = { Hindrance };

    ghost view = { λ h. record { kind = h.kind; text = h.text } };
}

impl Hindrance {
    /// The kind of the incident.
    pub fn kind(&self) -> IncidentKind
        ensures { result ≡ self.now.kind }
    {
        self.kind
    }

    /// The text of the incident.
    pub fn text(&self) -> &str
        ensures { result.now ≡ self.now.text }
    {
        self.text.as_str()
    }

    fn of(alloc: Global, kind: IncidentKind, text: &str) -> Result<Hindrance, AllocError>
        ensures { IfOk result (λ hindrance. hindrance ≡ record { kind = kind; text = text.now }) }
    {
        let text = Text::of(alloc, text)?;
        Ok(Hindrance { kind, text })
    }
}

/// The incident under a key that tells what keeps a cell from going on; no job is its cause.
pub fn stop_by(key: Key, cell: &Cell, hindrance: Hindrance) -> Move
    ensures { result ≡ stop_by key cell.now hindrance }
{
    let Hindrance { kind, text } = hindrance;
    Move::Incident(Incident {
        key,
        kind,
        cell: cell.key,
        job: Key::new(0),
        text,
    })
}

/// What an expression gives, or the hindrance that its fault is.
pub fn given<T: Drop>(
    alloc: Global,
    answer: Result<T, EvalFault>,
) -> Result<Result<T, Hindrance>, AllocError>
    ensures { (is : Result T ValueFault) → Evaluates answer is → IfOk result (λ given. given ≡ result_map_both (λ x. x) hindrance_of is) }
{
    match answer {
        Ok(value) => Ok(Ok(value)),
        Err(EvalFault::Unknown) => Ok(Err(extraction(alloc, "UNKNOWN")?)),
        Err(EvalFault::Kind) => Ok(Err(extraction(alloc, "KIND")?)),
        Err(EvalFault::Overflow) => Ok(Err(extraction(alloc, "OVERFLOW")?)),
        Err(EvalFault::Memory) => Err(AllocError),
    }
}

/// When a timer is due, or the hindrance that the fault of its time is.
pub fn due_given(
    alloc: Global,
    answer: Result<Moment, DueFault>,
) -> Result<Result<Moment, Hindrance>, AllocError>
    ensures { IfOk result (λ given. given ≡ result_map_both (λ due. due) time_hindrance answer) }
{
    match answer {
        Ok(due) => Ok(Ok(due)),
        Err(_) => Ok(Err(extraction(alloc, "TIMER")?)),
    }
}

/// An incident tells that no flow out of a gateway is chosen.
pub fn undecided(alloc: Global, key: Key, cell: &Cell, node: &Node) -> Result<Move, AllocError>
    ensures { IfOk result (λ move. move ≡ stop_by key cell.now (record { kind = kinds.ConditionError; text = node.now.id })) }
{
    let hindrance = Hindrance::of(alloc, IncidentKind::ConditionError, node.id.as_str())?;
    Ok(stop_by(key, cell, hindrance))
}

/// An incident tells of an error that was thrown in a cell, and that nothing catches. The code is copied.
pub fn uncaught(alloc: Global, key: Key, cell: &Cell, code: &str) -> Result<Move, AllocError>
    ensures { IfOk result (λ move. move ≡ stop_by key cell.now (error_hindrance code.now)) }
{
    let hindrance = Hindrance::of(alloc, IncidentKind::UnhandledErrorEvent, code)?;
    Ok(stop_by(key, cell, hindrance))
}

// A value was not to be had.
fn extraction(alloc: Global, text: &str) -> Result<Hindrance, AllocError>
    ensures { IfOk result (λ hindrance. hindrance ≡ record { kind = kinds.ExtractValueError; text = text.now }) }
{
    Hindrance::of(alloc, IncidentKind::ExtractValueError, text)
}
