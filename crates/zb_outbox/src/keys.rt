// The keys by which events end what is sent.
ghost use Rattle.std.specs.Prelude.{◌≡◌};
ghost use Rattle.zb_outbox.specs.Keys as spec;

use zb_model::{Event, Key};

/// The key that an event names, if it may end what stands under that.
pub fn ending_key(event: &Event) -> Option<Key>
    ensures { result ≡ spec.ending_key event.now }
{
    match event {
        Event::CommandDistributionAcknowledged(told) => Some(told.key),
        Event::ProcessMessageSubscriptionCreated(key)
        | Event::ProcessMessageSubscriptionDeleted(key)
        | Event::MessageSubscriptionDeleted(key) => Some(*key),
        Event::ProcessMessageSubscriptionDeleting(closing) => Some(closing.subscription),
        Event::MessageSubscriptionCorrelated(told) | Event::MessageSubscriptionRejected(told) => {
            Some(told.subscription)
        }
        _ => None,
    }
}
