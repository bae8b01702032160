// Records: messages.
ghost use Rattle.zb_exchange_records.specs.Layouts as layouts;

use std::alloc::{AllocError, Global};
use zb_base::{Key, Moment, Text, TryCopy, Vars};
use zb_format::{Cursor, Encoder, Fields, Format, ReadFault, Skip, pairs};

/// What MESSAGE PUBLISH asks for: a message that waits for whoever wants it.
#[derive(Drop)]
pub struct MessagePublish {
    pub name: Text,
    pub correlation_key: Text,
    /// Milliseconds.
    pub time_to_live: u64,
    pub id: Text,
    pub variables: Vars,
}

#[tactic(auto, unfolding(crate::specs::Layouts::message_publish))]
impl Format for MessagePublish {
    ghost layout = { layouts.message_publish };

    fn write(&self, encoder: &mut Encoder) -> Result<(), AllocError> {
        pairs!(
            &self.name,
            &self.correlation_key,
            &self.time_to_live,
            &self.id,
            &self.variables
        )
        .encode(encoder)
    }

    fn read(alloc: Global, cursor: &mut Cursor<'_>) -> Result<MessagePublish, ReadFault> {
        let pairs!(name, correlation_key, time_to_live, id, variables) = Format::read(
            alloc, cursor,
        )?;
        Ok(MessagePublish {
            name,
            correlation_key,
            time_to_live,
            id,
            variables,
        })
    }
}

#[tactic(auto, using(zb_format::proofs::SkipLemmas::skips), unfolding(crate::specs::Layouts::message_publish))]
impl Skip for MessagePublish {
    fn skip(alloc: Global, cursor: &mut Cursor<'_>) -> Result<(), ReadFault> {
        <(Text, (Text, (u64, (Text, Vars))))>::skip(alloc, cursor)
    }
}

/// MESSAGE PUBLISHED: the message is buffered under its key until the deadline.
#[derive(Drop)]
pub struct MessagePublished {
    pub key: Key,
    pub name: Text,
    pub correlation_key: Text,
    pub id: Text,
    pub deadline: Moment,
    pub variables: Vars,
}

#[tactic(auto, unfolding(crate::specs::Layouts::message_published))]
impl Format for MessagePublished {
    ghost layout = { layouts.message_published };

    fn write(&self, encoder: &mut Encoder) -> Result<(), AllocError> {
        pairs!(
            &self.key,
            &self.name,
            &self.correlation_key,
            &self.id,
            &self.deadline,
            &self.variables
        )
        .encode(encoder)
    }

    fn read(alloc: Global, cursor: &mut Cursor<'_>) -> Result<MessagePublished, ReadFault> {
        let pairs!(key, name, correlation_key, id, deadline, variables) = Format::read(
            alloc, cursor,
        )?;
        Ok(MessagePublished {
            key,
            name,
            correlation_key,
            id,
            deadline,
            variables,
        })
    }
}

impl TryCopy for MessagePublished {
    fn copy(&self, alloc: Global) -> Result<MessagePublished, AllocError> {
        Ok(MessagePublished {
            key: self.key,
            name: self.name.copy(alloc)?,
            correlation_key: self.correlation_key.copy(alloc)?,
            id: self.id.copy(alloc)?,
            deadline: self.deadline,
            variables: self.variables.copy(alloc)?,
        })
    }
}
