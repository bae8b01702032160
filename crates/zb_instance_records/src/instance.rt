// Records: process instances, their elements and their tokens.
ghost use Rattle.std.specs.Prelude.{◌≡◌};
ghost use Rattle.zb_format.specs.Reading.{one_of};
ghost use Rattle.zb_instance_records.specs.Layouts as layouts;

use std::alloc::{AllocError, Global};
use zb_base::{Key, List, Pair, Text, Vars};
use zb_format::{Cursor, Encoder, Fields, Format, ReadFault, Skip, pairs};

/// How an element stands in its scope.
#[derive(Clone, Copy, Debug, PartialEq, Eq)]
pub enum Role {
    Plain,
    /// It runs its activity once for each item of a collection.
    Body,
    /// It is one of those runs.
    Inner,
    /// It undoes a finished activity.
    Handler,
}

/// What PROCESS_INSTANCE_CREATION CREATE asks for: an instance of a version of a process, of its latest where the version is 0.
#[derive(Drop)]
pub struct ProcessInstanceCreationCreate {
    pub process: Text,
    pub version: u32,
    pub variables: Vars,
}

#[tactic(auto, unfolding(crate::specs::Layouts::process_instance_creation_create))]
impl Format for ProcessInstanceCreationCreate {
    ghost layout = { layouts.process_instance_creation_create };

    fn write(&self, encoder: &mut Encoder) -> Result<(), AllocError> {
        pairs!(&self.process, &self.version, &self.variables).encode(encoder)
    }

    fn read(
        alloc: Global,
        cursor: &mut Cursor<'_>,
    ) -> Result<ProcessInstanceCreationCreate, ReadFault> {
        let pairs!(process, version, variables) = Format::read(alloc, cursor)?;
        Ok(ProcessInstanceCreationCreate {
            process,
            version,
            variables,
        })
    }
}

#[tactic(auto, using(zb_format::proofs::SkipLemmas::skips), unfolding(crate::specs::Layouts::process_instance_creation_create))]
impl Skip for ProcessInstanceCreationCreate {
    fn skip(alloc: Global, cursor: &mut Cursor<'_>) -> Result<(), ReadFault> {
        <(Text, (u32, Vars))>::skip(alloc, cursor)
    }
}

/// PROCESS_INSTANCE ELEMENT_ACTIVATING: an element begins.
#[derive(Drop)]
pub struct ElementActivating {
    pub key: Key,
    /// 0 at a root.
    pub scope: Key,
    pub definition: Key,
    pub node: Text,
    pub role: Role,
    /// The flow of the token that was taken. Empty where there is none, and at a parallel gateway.
    pub via: Text,
    /// The correlation key of the message that started the instance, else empty.
    pub started: Text,
}

#[tactic(auto, unfolding(crate::specs::Layouts::element_activating))]
impl Format for ElementActivating {
    ghost layout = { layouts.element_activating };

    fn write(&self, encoder: &mut Encoder) -> Result<(), AllocError> {
        pairs!(
            &self.key,
            &self.scope,
            &self.definition,
            &self.node,
            &self.role,
            &self.via,
            &self.started
        )
        .encode(encoder)
    }

    fn read(alloc: Global, cursor: &mut Cursor<'_>) -> Result<ElementActivating, ReadFault> {
        let pairs!(key, scope, definition, node, role, via, started) = Format::read(alloc, cursor)?;
        Ok(ElementActivating {
            key,
            scope,
            definition,
            node,
            role,
            via,
            started,
        })
    }
}

/// PROCESS_INSTANCE ELEMENT_ACTIVATED: the element works.
#[derive(Drop)]
pub struct ElementActivated {
    pub key: Key,
    /// The items of a body.
    pub items: List<i64>,
}

#[tactic(auto, unfolding(crate::specs::Layouts::element_activated))]
impl Format for ElementActivated {
    ghost layout = { layouts.element_activated };

    fn write(&self, encoder: &mut Encoder) -> Result<(), AllocError> {
        (&self.key, &self.items).encode(encoder)
    }

    fn read(alloc: Global, cursor: &mut Cursor<'_>) -> Result<ElementActivated, ReadFault> {
        let (key, items) = Format::read(alloc, cursor)?;
        Ok(ElementActivated { key, items })
    }
}

/// PROCESS_INSTANCE ELEMENT_COMPLETED: the element owes tokens on these flows.
#[derive(Drop)]
pub struct ElementCompleted {
    pub key: Key,
    pub owed: List<Text>,
}

#[tactic(auto, unfolding(crate::specs::Layouts::element_completed))]
impl Format for ElementCompleted {
    ghost layout = { layouts.element_completed };

    fn write(&self, encoder: &mut Encoder) -> Result<(), AllocError> {
        (&self.key, &self.owed).encode(encoder)
    }

    fn read(alloc: Global, cursor: &mut Cursor<'_>) -> Result<ElementCompleted, ReadFault> {
        let (key, owed) = Format::read(alloc, cursor)?;
        Ok(ElementCompleted { key, owed })
    }
}

/// PROCESS_INSTANCE SEQUENCE_FLOW_TAKEN: the element that is left put a token on the flow.
#[derive(Drop)]
pub struct SequenceFlowTaken {
    pub key: Key,
    pub flow: Text,
}

#[tactic(auto, unfolding(crate::specs::Layouts::sequence_flow_taken))]
impl Format for SequenceFlowTaken {
    ghost layout = { layouts.sequence_flow_taken };

    fn write(&self, encoder: &mut Encoder) -> Result<(), AllocError> {
        (&self.key, &self.flow).encode(encoder)
    }

    fn read(alloc: Global, cursor: &mut Cursor<'_>) -> Result<SequenceFlowTaken, ReadFault> {
        let (key, flow) = Format::read(alloc, cursor)?;
        Ok(SequenceFlowTaken { key, flow })
    }
}

/// PROCESS_INSTANCE ELEMENT_MIGRATED: the element goes on as this node.
#[derive(Drop)]
pub struct ElementMigrated {
    pub key: Key,
    pub node: Text,
}

#[tactic(auto, unfolding(crate::specs::Layouts::element_migrated))]
impl Format for ElementMigrated {
    ghost layout = { layouts.element_migrated };

    fn write(&self, encoder: &mut Encoder) -> Result<(), AllocError> {
        (&self.key, &self.node).encode(encoder)
    }

    fn read(alloc: Global, cursor: &mut Cursor<'_>) -> Result<ElementMigrated, ReadFault> {
        let (key, node) = Format::read(alloc, cursor)?;
        Ok(ElementMigrated { key, node })
    }
}

/// The instance goes on in this definition, each node under its new id: what PROCESS_INSTANCE_MIGRATION
/// MIGRATE asks for, and MIGRATED.
#[derive(Drop)]
pub struct ProcessInstanceMigration {
    pub key: Key,
    pub definition: Key,
    pub pairs: List<Pair>,
}

#[tactic(auto, unfolding(crate::specs::Layouts::process_instance_migration))]
impl Format for ProcessInstanceMigration {
    ghost layout = { layouts.process_instance_migration };

    fn write(&self, encoder: &mut Encoder) -> Result<(), AllocError> {
        pairs!(&self.key, &self.definition, &self.pairs).encode(encoder)
    }

    fn read(alloc: Global, cursor: &mut Cursor<'_>) -> Result<ProcessInstanceMigration, ReadFault> {
        let pairs!(key, definition, pairs) = Format::read(alloc, cursor)?;
        Ok(ProcessInstanceMigration {
            key,
            definition,
            pairs,
        })
    }
}

impl Skip for ProcessInstanceMigration {}

/// PROCESS_EVENT TRIGGERED: what the element waited for has come, at this node.
#[derive(Drop)]
pub struct ProcessEventTriggered {
    pub cell: Key,
    pub node: Text,
}

#[tactic(auto, unfolding(crate::specs::Layouts::process_event_triggered))]
impl Format for ProcessEventTriggered {
    ghost layout = { layouts.process_event_triggered };

    fn write(&self, encoder: &mut Encoder) -> Result<(), AllocError> {
        (&self.cell, &self.node).encode(encoder)
    }

    fn read(alloc: Global, cursor: &mut Cursor<'_>) -> Result<ProcessEventTriggered, ReadFault> {
        let (cell, node) = Format::read(alloc, cursor)?;
        Ok(ProcessEventTriggered { cell, node })
    }
}

#[tactic(auto, unfolding(crate::specs::Layouts::role))]
impl Format for Role {
    ghost layout = { layouts.role };

    fn write(&self, encoder: &mut Encoder) -> Result<(), AllocError> {
        encoder.add(&[byte_of(*self)])
    }

    fn read(_alloc: Global, cursor: &mut Cursor<'_>) -> Result<Role, ReadFault> {
        role_of(cursor.byte()?).ok_or(ReadFault::NotSpelled)
    }
}

// The byte of a role.
fn byte_of(role: Role) -> u8
    ensures { result ≡ layouts.role_byte role }
{
    match role {
        Role::Plain => 0,
        Role::Body => 1,
        Role::Inner => 2,
        Role::Handler => 3,
    }
}

// The role that a byte stands for.
fn role_of(byte: u8) -> Option<Role>
    ensures { result ≡ one_of layouts.role_byte layouts.each_role byte }
{
    match byte {
        0 => Some(Role::Plain),
        1 => Some(Role::Body),
        2 => Some(Role::Inner),
        3 => Some(Role::Handler),
        _ => None,
    }
}
