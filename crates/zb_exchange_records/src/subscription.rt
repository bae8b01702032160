// Records: who waits for messages, here and at the partition where the messages live.
ghost use Rattle.zb_exchange_records.specs.Layouts as layouts;

use std::alloc::{AllocError, Global};
use zb_base::{Key, List, Text, TryCopy, Vars};
use zb_format::{Cursor, Encoder, Fields, Format, ReadFault, Skip, pairs};

/// Messages of this name and correlation key are wanted: what MESSAGE_SUBSCRIPTION CREATE asks for, and
/// MESSAGE_SUBSCRIPTION CREATED.
#[derive(Drop)]
pub struct MessageSubscription {
    pub subscription: Key,
    pub name: Text,
    pub correlation_key: Text,
    pub process: Text,
    /// False only for a boundary event that lets its element go on.
    pub cancel: bool,
}

#[tactic(auto, unfolding(crate::specs::Layouts::message_subscription))]
impl Format for MessageSubscription {
    ghost layout = { layouts.message_subscription };

    fn write(&self, encoder: &mut Encoder) -> Result<(), AllocError> {
        pairs!(
            &self.subscription,
            &self.name,
            &self.correlation_key,
            &self.process,
            &self.cancel
        )
        .encode(encoder)
    }

    fn read(alloc: Global, cursor: &mut Cursor<'_>) -> Result<MessageSubscription, ReadFault> {
        let pairs!(subscription, name, correlation_key, process, cancel) = Format::read(
            alloc, cursor,
        )?;
        Ok(MessageSubscription {
            subscription,
            name,
            correlation_key,
            process,
            cancel,
        })
    }
}

#[tactic(auto, using(zb_format::proofs::SkipLemmas::skips), unfolding(crate::specs::Layouts::message_subscription))]
impl Skip for MessageSubscription {
    fn skip(alloc: Global, cursor: &mut Cursor<'_>) -> Result<(), ReadFault> {
        <(Key, (Text, (Text, (Text, bool))))>::skip(alloc, cursor)
    }
}

impl TryCopy for MessageSubscription {
    fn copy(&self, alloc: Global) -> Result<MessageSubscription, AllocError> {
        Ok(MessageSubscription {
            subscription: self.subscription,
            name: self.name.copy(alloc)?,
            correlation_key: self.correlation_key.copy(alloc)?,
            process: self.process.copy(alloc)?,
            cancel: self.cancel,
        })
    }
}

/// A message and the subscription that it is for: that it was taken, or wasn't. So tell
/// MESSAGE_SUBSCRIPTION CORRELATE and REJECT, CORRELATED and REJECTED, and PROCESS_MESSAGE_SUBSCRIPTION
/// CORRELATED.
#[derive(Clone, Copy)]
pub struct SubscribedMessage {
    pub subscription: Key,
    pub message: Key,
}

#[tactic(auto, unfolding(crate::specs::Layouts::subscribed_message))]
impl Format for SubscribedMessage {
    ghost layout = { layouts.subscribed_message };

    fn write(&self, encoder: &mut Encoder) -> Result<(), AllocError> {
        (&self.subscription, &self.message).encode(encoder)
    }

    fn read(alloc: Global, cursor: &mut Cursor<'_>) -> Result<SubscribedMessage, ReadFault> {
        let (subscription, message) = Format::read(alloc, cursor)?;
        Ok(SubscribedMessage {
            subscription,
            message,
        })
    }
}

impl Skip for SubscribedMessage {}

/// What MESSAGE_SUBSCRIPTION DELETE asks for: no message is wanted any longer. These were taken.
#[derive(Drop)]
pub struct MessageSubscriptionDelete {
    pub subscription: Key,
    pub keys: List<Key>,
}

#[tactic(auto, unfolding(crate::specs::Layouts::message_subscription_delete))]
impl Format for MessageSubscriptionDelete {
    ghost layout = { layouts.message_subscription_delete };

    fn write(&self, encoder: &mut Encoder) -> Result<(), AllocError> {
        (&self.subscription, &self.keys).encode(encoder)
    }

    fn read(
        alloc: Global,
        cursor: &mut Cursor<'_>,
    ) -> Result<MessageSubscriptionDelete, ReadFault> {
        let (subscription, keys) = Format::read(alloc, cursor)?;
        Ok(MessageSubscriptionDelete { subscription, keys })
    }
}

impl Skip for MessageSubscriptionDelete {}

/// The message is sent to who wants it: MESSAGE_SUBSCRIPTION CORRELATING, and what
/// PROCESS_MESSAGE_SUBSCRIPTION CORRELATE asks for.
#[derive(Drop)]
pub struct MessageCorrelation {
    pub subscription: Key,
    pub message: Key,
    pub variables: Vars,
}

#[tactic(auto, unfolding(crate::specs::Layouts::message_correlation))]
impl Format for MessageCorrelation {
    ghost layout = { layouts.message_correlation };

    fn write(&self, encoder: &mut Encoder) -> Result<(), AllocError> {
        pairs!(&self.subscription, &self.message, &self.variables).encode(encoder)
    }

    fn read(alloc: Global, cursor: &mut Cursor<'_>) -> Result<MessageCorrelation, ReadFault> {
        let pairs!(subscription, message, variables) = Format::read(alloc, cursor)?;
        Ok(MessageCorrelation {
            subscription,
            message,
            variables,
        })
    }
}

#[tactic(auto, using(zb_format::proofs::SkipLemmas::skips), unfolding(crate::specs::Layouts::message_correlation))]
impl Skip for MessageCorrelation {
    fn skip(alloc: Global, cursor: &mut Cursor<'_>) -> Result<(), ReadFault> {
        <(Key, (Key, Vars))>::skip(alloc, cursor)
    }
}

impl TryCopy for MessageCorrelation {
    fn copy(&self, alloc: Global) -> Result<MessageCorrelation, AllocError> {
        Ok(MessageCorrelation {
            subscription: self.subscription,
            message: self.message,
            variables: self.variables.copy(alloc)?,
        })
    }
}

/// MESSAGE_START_EVENT_SUBSCRIPTION CORRELATED: the message starts this instance of the definition.
#[derive(Clone, Copy)]
pub struct MessageStartEventSubscriptionCorrelated {
    pub message: Key,
    pub definition: Key,
    pub instance: Key,
}

#[tactic(auto, unfolding(crate::specs::Layouts::message_start_event_subscription_correlated))]
impl Format for MessageStartEventSubscriptionCorrelated {
    ghost layout = { layouts.message_start_event_subscription_correlated };

    fn write(&self, encoder: &mut Encoder) -> Result<(), AllocError> {
        pairs!(&self.message, &self.definition, &self.instance).encode(encoder)
    }

    fn read(
        alloc: Global,
        cursor: &mut Cursor<'_>,
    ) -> Result<MessageStartEventSubscriptionCorrelated, ReadFault> {
        let pairs!(message, definition, instance) = Format::read(alloc, cursor)?;
        Ok(MessageStartEventSubscriptionCorrelated {
            message,
            definition,
            instance,
        })
    }
}

/// PROCESS_MESSAGE_SUBSCRIPTION CREATING: the element waits for a message at this node.
#[derive(Drop)]
pub struct ProcessMessageSubscriptionCreating {
    pub subscription: Key,
    pub cell: Key,
    pub node: Text,
    pub name: Text,
    pub correlation_key: Text,
    pub process: Text,
    /// False only for a boundary event that lets its element go on.
    pub cancel: bool,
}

#[tactic(auto, unfolding(crate::specs::Layouts::process_message_subscription_creating))]
impl Format for ProcessMessageSubscriptionCreating {
    ghost layout = { layouts.process_message_subscription_creating };

    fn write(&self, encoder: &mut Encoder) -> Result<(), AllocError> {
        pairs!(
            &self.subscription,
            &self.cell,
            &self.node,
            &self.name,
            &self.correlation_key,
            &self.process,
            &self.cancel
        )
        .encode(encoder)
    }

    fn read(
        alloc: Global,
        cursor: &mut Cursor<'_>,
    ) -> Result<ProcessMessageSubscriptionCreating, ReadFault> {
        let pairs!(
            subscription,
            cell,
            node,
            name,
            correlation_key,
            process,
            cancel
        ) = Format::read(alloc, cursor)?;
        Ok(ProcessMessageSubscriptionCreating {
            subscription,
            cell,
            node,
            name,
            correlation_key,
            process,
            cancel,
        })
    }
}

/// PROCESS_MESSAGE_SUBSCRIPTION DELETING: no message is wanted any longer. These were taken.
#[derive(Drop)]
pub struct ProcessMessageSubscriptionDeleting {
    pub subscription: Key,
    pub correlation_key: Text,
    pub keys: List<Key>,
}

#[tactic(auto, unfolding(crate::specs::Layouts::process_message_subscription_deleting))]
impl Format for ProcessMessageSubscriptionDeleting {
    ghost layout = { layouts.process_message_subscription_deleting };

    fn write(&self, encoder: &mut Encoder) -> Result<(), AllocError> {
        pairs!(&self.subscription, &self.correlation_key, &self.keys).encode(encoder)
    }

    fn read(
        alloc: Global,
        cursor: &mut Cursor<'_>,
    ) -> Result<ProcessMessageSubscriptionDeleting, ReadFault> {
        let pairs!(subscription, correlation_key, keys) = Format::read(alloc, cursor)?;
        Ok(ProcessMessageSubscriptionDeleting {
            subscription,
            correlation_key,
            keys,
        })
    }
}

impl TryCopy for ProcessMessageSubscriptionDeleting {
    fn copy(&self, alloc: Global) -> Result<ProcessMessageSubscriptionDeleting, AllocError> {
        Ok(ProcessMessageSubscriptionDeleting {
            subscription: self.subscription,
            correlation_key: self.correlation_key.copy(alloc)?,
            keys: self.keys.copy(alloc)?,
        })
    }
}
