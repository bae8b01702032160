// What a partition sends, again and again until an event ends it.
ghost use Rattle.std.specs.Prelude.{◌≡◌, ◌≤◌, IfOk};
ghost use Rattle.zb_views.specs.Distributions.{ends_distribution};
ghost use Rattle.zb_record.specs.Sendings.{key_of_sending, sending_told, opening_of, ends_sending, ends_opening, ends_correlating, ends_closing};
ghost use Rattle.zb_record.specs.Packets.{packet_alone};

use crate::partitions::{home_known, partition_of_key};
use std::alloc::{AllocError, Global};
use zb_model::{
    Command, Event, Key, MessageCorrelation, MessageSubscription, MessageSubscriptionDelete,
    Packet, PartitionId, ProcessMessageSubscriptionCreating, ProcessMessageSubscriptionDeleting,
    TryCopy,
};
use zb_queue::Queued;
use zb_views::Distribution;

/// What a partition sends, again and again until an event ends it.
#[derive(Drop)]
pub enum Sending {
    /// A definition is on its way to another partition.
    Definition(Distribution),
    /// A subscription is opened at the home of its messages.
    Opening(MessageSubscription),
    /// A message goes to the subscription that it is for.
    Correlating(MessageCorrelation),
    /// A subscription is closed at the home of its messages.
    Closing(ProcessMessageSubscriptionDeleting),
}

impl TryCopy for Sending {
    fn copy(&self, alloc: Global) -> Result<Sending, AllocError> {
        match self {
            Sending::Definition(distribution) => Ok(Sending::Definition(*distribution)),
            Sending::Opening(subscription) => Ok(Sending::Opening(subscription.copy(alloc)?)),
            Sending::Correlating(message) => Ok(Sending::Correlating(message.copy(alloc)?)),
            Sending::Closing(subscription) => Ok(Sending::Closing(subscription.copy(alloc)?)),
        }
    }
}

/// A sending stands under the key of its definition or of its subscription.
impl Queued for Sending {
    ghost name_in = { key_of_sending };

    fn name(&self) -> Key {
        match self {
            Sending::Definition(distribution) => distribution.definition,
            Sending::Opening(opened) => opened.subscription,
            Sending::Correlating(message) => message.subscription,
            Sending::Closing(closing) => closing.subscription,
        }
    }
}

impl Sending {
    /// The packet of what its own event tells whole, of so many partitions; `None` of a definition, whose model stands
    /// elsewhere.
    pub fn into_packet(self, from: PartitionId, partitions: u32) -> Option<Packet>
        requires { partitions ≤ 16 }
        ensures { result ≡ packet_alone from partitions self }
    {
        match self {
            Sending::Definition(_) => None,
            Sending::Opening(subscription) => Some(Packet {
                from,
                to: home_known(subscription.correlation_key.as_str().as_bytes(), partitions),
                command: Command::MessageSubscriptionCreate(subscription),
            }),
            Sending::Correlating(message) => Some(Packet {
                from,
                to: partition_of_key(message.subscription, partitions),
                command: Command::ProcessMessageSubscriptionCorrelate(message),
            }),
            Sending::Closing(closing) => Some(Packet {
                from,
                to: home_known(closing.correlation_key.as_str().as_bytes(), partitions),
                command: Command::MessageSubscriptionDelete(deletion(closing)),
            }),
        }
    }
}

// What a partition asks for where it closes a subscription.
fn deletion(closing: ProcessMessageSubscriptionDeleting) -> MessageSubscriptionDelete
    ensures keys { result.keys ≡ closing.keys }
    ensures subscription { result.subscription ≡ closing.subscription }
{
    MessageSubscriptionDelete {
        subscription: closing.subscription,
        keys: closing.keys,
    }
}

/// What an event begins to send. It costs a copy of what that is.
pub fn sending_in(alloc: Global, event: &Event) -> Result<Option<Sending>, AllocError>
    ensures { IfOk result (λ sending. sending ≡ sending_told event.now) }
{
    match event {
        Event::CommandDistributionDistributing(sent) => Ok(Some(Sending::Definition(
            Distribution {
                definition: sent.key,
                partition: sent.partition,
            },
        ))),
        Event::ProcessMessageSubscriptionCreating(made) => {
            Ok(Some(Sending::Opening(opening(alloc, made)?)))
        }
        Event::MessageSubscriptionCorrelating(message) => {
            Ok(Some(Sending::Correlating(message.copy(alloc)?)))
        }
        Event::ProcessMessageSubscriptionDeleting(closing) => {
            Ok(Some(Sending::Closing(closing.copy(alloc)?)))
        }
        _ => Ok(None),
    }
}

// The subscription that a partition opens at the home of its messages.
fn opening(
    alloc: Global,
    made: &ProcessMessageSubscriptionCreating,
) -> Result<MessageSubscription, AllocError>
    ensures { IfOk result (λ subscription. subscription ≡ opening_of made.now) }
{
    Ok(MessageSubscription {
        subscription: made.subscription,
        name: made.name.copy(alloc)?,
        correlation_key: made.correlation_key.copy(alloc)?,
        process: made.process.copy(alloc)?,
        cancel: made.cancel,
    })
}

/// Whether an event ends a sending.
pub fn ends_sending(event: &Event, sending: &Sending) -> bool
    ensures { result ≡ ends_sending event.now sending.now }
{
    match sending {
        Sending::Definition(distribution) => ends_distribution(event, *distribution),
        Sending::Opening(opened) => ends_opening(event, opened.subscription),
        Sending::Correlating(message) => ends_correlating(event, message),
        Sending::Closing(closing) => ends_closing(event, closing.subscription),
    }
}

// Whether the partition has the definition.
fn ends_distribution(event: &Event, distribution: Distribution) -> bool
    ensures { result ≡ ends_distribution distribution event.now }
{
    match event {
        Event::CommandDistributionAcknowledged(told) => {
            distribution.definition == told.key && distribution.partition == told.partition
        }
        _ => false,
    }
}

// Whether the home of its messages has the subscription, or it is closed.
fn ends_opening(event: &Event, subscription: Key) -> bool
    ensures { result ≡ ends_opening subscription event.now }
{
    match event {
        Event::ProcessMessageSubscriptionCreated(key) => *key == subscription,
        Event::ProcessMessageSubscriptionDeleting(closing) => closing.subscription == subscription,
        _ => false,
    }
}

// Whether the message was taken or turned away, or its subscription is gone.
fn ends_correlating(event: &Event, message: &MessageCorrelation) -> bool
    ensures { result ≡ ends_correlating message.now event.now }
{
    match event {
        Event::MessageSubscriptionCorrelated(told) | Event::MessageSubscriptionRejected(told) => {
            told.subscription == message.subscription && told.message == message.message
        }
        Event::MessageSubscriptionDeleted(key) => *key == message.subscription,
        _ => false,
    }
}

// Whether the subscription is gone.
fn ends_closing(event: &Event, subscription: Key) -> bool
    ensures { result ≡ ends_closing subscription event.now }
{
    match event {
        Event::ProcessMessageSubscriptionDeleted(key) => *key == subscription,
        _ => false,
    }
}
