// Records: the models that stand at a partition, and how they reach the others.
ghost use Rattle.zb_instance_records.specs.Layouts as layouts;

use std::alloc::{AllocError, Global};
use zb_base::{Key, TryCopy};
use zb_format::{Cursor, Encoder, Fields, Format, ReadFault, Skip, pairs};
use zb_process::Model;

/// The model stands under its key: PROCESS CREATED, and what DEPLOYMENT DISTRIBUTE asks for of a partition
/// that didn't draw the key.
#[derive(Drop)]
pub struct ProcessDefinition {
    pub key: Key,
    pub version: u32,
    pub model: Model,
}

#[tactic(auto, unfolding(crate::specs::Layouts::process_definition))]
impl Format for ProcessDefinition {
    ghost layout = { layouts.process_definition };

    fn write(&self, encoder: &mut Encoder) -> Result<(), AllocError> {
        pairs!(&self.key, &self.version, &self.model).encode(encoder)
    }

    fn read(alloc: Global, cursor: &mut Cursor<'_>) -> Result<ProcessDefinition, ReadFault> {
        let pairs!(key, version, model) = Format::read(alloc, cursor)?;
        Ok(ProcessDefinition {
            key,
            version,
            model,
        })
    }
}

#[tactic(auto, using(zb_format::proofs::SkipLemmas::skips), unfolding(crate::specs::Layouts::process_definition))]
impl Skip for ProcessDefinition {
    fn skip(alloc: Global, cursor: &mut Cursor<'_>) -> Result<(), ReadFault> {
        <(Key, (u32, Model))>::skip(alloc, cursor)
    }
}

impl TryCopy for ProcessDefinition {
    fn copy(&self, alloc: Global) -> Result<ProcessDefinition, AllocError> {
        Ok(ProcessDefinition {
            key: self.key,
            version: self.version,
            model: self.model.copy(alloc)?,
        })
    }
}

/// What has this key is of this definition: a deployment made it (DEPLOYMENT CREATED), or an instance of it
/// begins (PROCESS_INSTANCE_CREATION CREATED).
#[derive(Clone, Copy)]
pub struct DefinitionLink {
    pub key: Key,
    pub definition: Key,
}

#[tactic(auto, unfolding(crate::specs::Layouts::definition_link))]
impl Format for DefinitionLink {
    ghost layout = { layouts.definition_link };

    fn write(&self, encoder: &mut Encoder) -> Result<(), AllocError> {
        (&self.key, &self.definition).encode(encoder)
    }

    fn read(alloc: Global, cursor: &mut Cursor<'_>) -> Result<DefinitionLink, ReadFault> {
        let (key, definition) = Format::read(alloc, cursor)?;
        Ok(DefinitionLink { key, definition })
    }
}

/// The definition is sent to that partition (COMMAND_DISTRIBUTION DISTRIBUTING), or stands there
/// (ACKNOWLEDGE and ACKNOWLEDGED).
#[derive(Clone, Copy)]
pub struct CommandDistribution {
    pub key: Key,
    pub partition: u32,
}

#[tactic(auto, unfolding(crate::specs::Layouts::command_distribution))]
impl Format for CommandDistribution {
    ghost layout = { layouts.command_distribution };

    fn write(&self, encoder: &mut Encoder) -> Result<(), AllocError> {
        (&self.key, &self.partition).encode(encoder)
    }

    fn read(alloc: Global, cursor: &mut Cursor<'_>) -> Result<CommandDistribution, ReadFault> {
        let (key, partition) = Format::read(alloc, cursor)?;
        Ok(CommandDistribution { key, partition })
    }
}

impl Skip for CommandDistribution {}
