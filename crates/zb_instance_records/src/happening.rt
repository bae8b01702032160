// Records: timers, variables and incidents.
ghost use Rattle.std.specs.Prelude.{◌≡◌};
ghost use Rattle.zb_format.specs.Reading.{one_of};
ghost use Rattle.zb_instance_records.specs.Layouts as layouts;

use std::alloc::{AllocError, Global};
use zb_base::{Key, Moment, Text, Value, Vars};
use zb_format::{Cursor, Encoder, Fields, Format, ReadFault, Skip, pairs};

/// Why an element cannot go on.
#[derive(Clone, Copy, Debug, PartialEq, Eq)]
pub enum IncidentKind {
    ExtractValueError,
    ConditionError,
    JobNoRetries,
    UnhandledErrorEvent,
}

/// TIMER CREATED: the element waits at this node until the moment.
#[derive(Drop)]
pub struct TimerCreated {
    pub key: Key,
    pub cell: Key,
    pub node: Text,
    pub due: Moment,
}

#[tactic(auto, unfolding(crate::specs::Layouts::timer_created))]
impl Format for TimerCreated {
    ghost layout = { layouts.timer_created };

    fn write(&self, encoder: &mut Encoder) -> Result<(), AllocError> {
        pairs!(&self.key, &self.cell, &self.node, &self.due).encode(encoder)
    }

    fn read(alloc: Global, cursor: &mut Cursor<'_>) -> Result<TimerCreated, ReadFault> {
        let pairs!(key, cell, node, due) = Format::read(alloc, cursor)?;
        Ok(TimerCreated {
            key,
            cell,
            node,
            due,
        })
    }
}

/// What VARIABLE_DOCUMENT UPDATE asks for: these variables are set.
#[derive(Drop)]
pub struct VariableDocumentUpdate {
    pub scope: Key,
    /// Whether they are set at the scope itself, wherever the names stand.
    pub local: bool,
    pub variables: Vars,
}

#[tactic(auto, unfolding(crate::specs::Layouts::variable_document_update))]
impl Format for VariableDocumentUpdate {
    ghost layout = { layouts.variable_document_update };

    fn write(&self, encoder: &mut Encoder) -> Result<(), AllocError> {
        pairs!(&self.scope, &self.local, &self.variables).encode(encoder)
    }

    fn read(alloc: Global, cursor: &mut Cursor<'_>) -> Result<VariableDocumentUpdate, ReadFault> {
        let pairs!(scope, local, variables) = Format::read(alloc, cursor)?;
        Ok(VariableDocumentUpdate {
            scope,
            local,
            variables,
        })
    }
}

#[tactic(auto, using(zb_format::proofs::SkipLemmas::skips), unfolding(crate::specs::Layouts::variable_document_update))]
impl Skip for VariableDocumentUpdate {
    fn skip(alloc: Global, cursor: &mut Cursor<'_>) -> Result<(), ReadFault> {
        <(Key, (bool, Vars))>::skip(alloc, cursor)
    }
}

/// The scope has this variable, with this value: VARIABLE CREATED and UPDATED.
#[derive(Drop)]
pub struct ScopeVariable {
    pub scope: Key,
    pub name: Text,
    pub value: Value,
}

#[tactic(auto, unfolding(crate::specs::Layouts::scope_variable))]
impl Format for ScopeVariable {
    ghost layout = { layouts.scope_variable };

    fn write(&self, encoder: &mut Encoder) -> Result<(), AllocError> {
        pairs!(&self.scope, &self.name, &self.value).encode(encoder)
    }

    fn read(alloc: Global, cursor: &mut Cursor<'_>) -> Result<ScopeVariable, ReadFault> {
        let pairs!(scope, name, value) = Format::read(alloc, cursor)?;
        Ok(ScopeVariable { scope, name, value })
    }
}

/// INCIDENT CREATED: the element cannot go on.
#[derive(Drop)]
pub struct IncidentCreated {
    pub key: Key,
    pub kind: IncidentKind,
    pub cell: Key,
    /// 0 where the job is not the cause.
    pub job: Key,
    pub text: Text,
}

#[tactic(auto, unfolding(crate::specs::Layouts::incident_created))]
impl Format for IncidentCreated {
    ghost layout = { layouts.incident_created };

    fn write(&self, encoder: &mut Encoder) -> Result<(), AllocError> {
        pairs!(&self.key, &self.kind, &self.cell, &self.job, &self.text).encode(encoder)
    }

    fn read(alloc: Global, cursor: &mut Cursor<'_>) -> Result<IncidentCreated, ReadFault> {
        let pairs!(key, kind, cell, job, text) = Format::read(alloc, cursor)?;
        Ok(IncidentCreated {
            key,
            kind,
            cell,
            job,
            text,
        })
    }
}

/// INCIDENT RESOLVED: the element goes on.
#[derive(Clone, Copy)]
pub struct IncidentResolved {
    pub key: Key,
    /// 0 where the job was not the cause.
    pub job: Key,
}

#[tactic(auto, unfolding(crate::specs::Layouts::incident_resolved))]
impl Format for IncidentResolved {
    ghost layout = { layouts.incident_resolved };

    fn write(&self, encoder: &mut Encoder) -> Result<(), AllocError> {
        (&self.key, &self.job).encode(encoder)
    }

    fn read(alloc: Global, cursor: &mut Cursor<'_>) -> Result<IncidentResolved, ReadFault> {
        let (key, job) = Format::read(alloc, cursor)?;
        Ok(IncidentResolved { key, job })
    }
}

#[tactic(auto, unfolding(crate::specs::Layouts::incident_kind))]
impl Format for IncidentKind {
    ghost layout = { layouts.incident_kind };

    fn write(&self, encoder: &mut Encoder) -> Result<(), AllocError> {
        encoder.add(&[byte_of(*self)])
    }

    fn read(_alloc: Global, cursor: &mut Cursor<'_>) -> Result<IncidentKind, ReadFault> {
        kind_of(cursor.byte()?).ok_or(ReadFault::NotSpelled)
    }
}

// The byte of an incident's kind.
fn byte_of(kind: IncidentKind) -> u8
    ensures { result ≡ layouts.incident_byte kind }
{
    match kind {
        IncidentKind::ExtractValueError => 1,
        IncidentKind::ConditionError => 2,
        IncidentKind::JobNoRetries => 3,
        IncidentKind::UnhandledErrorEvent => 4,
    }
}

// The kind of incident that a byte stands for.
fn kind_of(byte: u8) -> Option<IncidentKind>
    ensures { result ≡ one_of layouts.incident_byte layouts.each_incident byte }
{
    match byte {
        1 => Some(IncidentKind::ExtractValueError),
        2 => Some(IncidentKind::ConditionError),
        3 => Some(IncidentKind::JobNoRetries),
        4 => Some(IncidentKind::UnhandledErrorEvent),
        _ => None,
    }
}
