// What events of subscriptions ask of those that are there, and of the messages.
ghost use Rattle.std.specs.Prelude.{◌≡◌, ◌==◌, List, is_some};
ghost use Rattle.std.specs.List.{find};
ghost use Rattle.std.specs.Option.{option_copied};
ghost use Rattle.zb_model.specs.declared.record.Event.{Event};
ghost use Rattle.zb_views.specs.Subscriptions.{is_subscribed, subscription_at};
ghost use Rattle.zb_rules.specs.Correlate.{fits_message, begins_correlating, is_correlating};
ghost use Rattle.zb_state.specs.State.{IsStateOf};

use crate::Facts;
use zb_model::{Key, MessageCorrelation, MessagePublished};
use zb_views::Subscription;

impl Facts {
    // The subscription with this key.
    pub(crate) fn subscription(&self, key: Key) -> Option<&Subscription>
        ensures found { option_copied result ≡ find (λ s. s.key == key) self.now.tables.subscriptions }
        ensures told { (es : List Event) → IsStateOf es self.now → option_copied result ≡ subscription_at key es }
    {
        self.tables.subscriptions.get(key)
    }

    // Whether a subscription has this key.
    pub(super) fn is_subscribed(&self, key: Key) -> bool
        ensures found { result ≡ is_some (find (λ s. s.key == key) self.now.tables.subscriptions) }
        ensures told { (es : List Event) → IsStateOf es self.now → result ≡ is_subscribed key es }
    {
        self.subscription(key).is_some()
    }

    // Whether the subscription is there and the message is buffered, and it may correlate it.
    pub(super) fn begins_correlating(&self, begun: &MessageCorrelation) -> bool
        ensures { (es : List Event) → IsStateOf es self.now → result ≡ begins_correlating begun.now es }
    {
        let Some(subscription) = self.subscription(begun.subscription) else {
            return false;
        };
        match self.messages.get(begun.message) {
            Some(message) => self.fits(message, subscription),
            None => false,
        }
    }

    /// Whether a subscription may correlate a message: it waits for its name and correlation key and correlates none, and the
    /// message isn't locked for its process. It costs what `Locks::is_locked` does.
    pub(crate) fn fits(&self, message: &MessagePublished, subscription: &Subscription) -> bool
        ensures { (es : List Event) → IsStateOf es self.now → result ≡ fits_message message.now subscription.now es }
    {
        subscription.name.as_str() == message.name.as_str()
            && subscription.correlation_key.as_str() == message.correlation_key.as_str()
            && subscription.correlating.is_none()
            && !self
                .tables
                .starts
                .locks
                .is_locked(message.key, subscription.process.as_str())
    }

    // Whether the subscription is correlating this message.
    pub(crate) fn is_correlating(&self, subscription: Key, message: Key) -> bool
        ensures { (es : List Event) → IsStateOf es self.now → result ≡ is_correlating subscription message es }
    {
        match self.subscription(subscription) {
            Some(found) => found.correlating == Some(message),
            None => false,
        }
    }
}
