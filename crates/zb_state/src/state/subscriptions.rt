// Subscriptions at the home of their messages, as the state lends them.
ghost use Rattle.std.specs.Prelude.{◌≡◌, ◌&&◌, List, not, is_some, filter, map, IfOk};
ghost use Rattle.std.specs.List.{list_any};
ghost use Rattle.std.specs.Option.{option_copied};
ghost use Rattle.std.specs.Str.{bytes_eq};
ghost use Rattle.zb_model.specs.declared.record.Event.{Event};
ghost use Rattle.zb_views.specs.ProcessSubscriptions.{process_subscription_at};
ghost use Rattle.zb_views.specs.Subscriptions.{wants_messages, is_lock, subscriptions, subscription_at};
ghost use Rattle.zb_rules.specs.Correlate.{fits_message, next_message, next_subscription, is_correlating};
ghost use Rattle.zb_state.specs.State.{IsStateOf};

use super::starts::first_free;
use crate::State;
use std::alloc::{AllocError, Global};
use zb_model::{Key, MessagePublished};
use zb_starts::Locks;
use zb_table::Query;
use zb_views::{ProcessSubscription, Subscription};

impl State {
    /// The subscription with this key. It takes the logarithm of how many there are.
    pub fn subscription(&self, key: Key) -> Option<&Subscription>
        ensures { (es : List Event) → IsStateOf es self.now → option_copied result ≡ subscription_at key es }
    {
        self.facts.subscription(key)
    }

    /// The subscription with this key, of an element instance that waits here. It takes the logarithm of how many there are.
    pub fn process_subscription(&self, key: Key) -> Option<&ProcessSubscription>
        ensures { (es : List Event) → IsStateOf es self.now → option_copied result ≡ process_subscription_at key es }
    {
        self.facts.process_subscription(key)
    }

    /// Whether a subscription is correlating this message.
    pub fn is_correlating(&self, subscription: Key, message: Key) -> bool
        ensures { (es : List Event) → IsStateOf es self.now → result ≡ is_correlating subscription message es }
    {
        self.facts.is_correlating(subscription, message)
    }

    /// Whether a subscription may correlate a message. It costs what `Locks::is_locked` does.
    pub fn fits(&self, message: &MessagePublished, subscription: &Subscription) -> bool
        ensures { (es : List Event) → IsStateOf es self.now → result ≡ fits_message message.now subscription.now es }
    {
        self.facts.fits(message, subscription)
    }

    /// The keys of the subscriptions for messages of this name and correlation key, in the order in which they were opened.
    /// It takes the logarithm of how many there are for each of them.
    pub fn subscriptions_for(
        &self,
        alloc: Global,
        name: &str,
        correlation_key: &str,
    ) -> Result<Vec<Key>, AllocError>
        ensures { (es : List Event) → IsStateOf es self.now
            → IfOk result (λ keys. keys.items ≡ map (λ s. s.key) (filter (wants_messages name.now correlation_key.now) (subscriptions es))) }
    {
        self.facts
            .tables
            .subscriptions
            .keys_for(alloc, name, correlation_key)
    }

    /// The first buffered message that a subscription may correlate. It goes through those of its name and correlation key up
    /// to that one, and takes for each what `Locks::is_locked` does.
    pub fn next_message(&self, subscription: &Subscription) -> Option<&MessagePublished>
        ensures { (es : List Event) → IsStateOf es self.now → option_copied result ≡ next_message subscription.now es }
    {
        if subscription.correlating.is_some() {
            return None;
        }
        let keys = self.messages_of(
            subscription.name.as_str(),
            subscription.correlation_key.as_str(),
        );
        let locks = &self.facts.tables.starts.locks;
        match first_free(keys, locks, subscription.process.as_str()) {
            Some(key) => self.facts.messages.get(key),
            None => None,
        }
    }

    /// Of the subscriptions of a process the first that may correlate a message, in the order in which they were opened. It
    /// goes through those of the message's name and correlation key up to that one, and takes for each what
    /// `Locks::is_locked` does.
    pub fn next_subscription(
        &self,
        message: &MessagePublished,
        process: &str,
    ) -> Option<&Subscription>
        ensures { (es : List Event) → IsStateOf es self.now → option_copied result ≡ next_subscription message.now process.now es }
    {
        let tables = &self.facts.tables;
        let idle = IdleOf {
            process,
            message: message.key,
            locks: &tables.starts.locks,
        };
        tables.subscriptions.first_for(
            message.name.as_str(),
            message.correlation_key.as_str(),
            &idle,
        )
    }
}

// Whether a subscription is one of a process, and correlates nothing, and the message isn't locked for the process.
#[derive(Drop)]
struct IdleOf<'a> {
    process: &'a str,
    message: Key,
    locks: &'a Locks,
}

impl<'a> Query<Subscription> for IdleOf<'a> {
    ghost passes = { λ q s. bytes_eq s.process q.process.now && not (is_some s.correlating) && not (list_any (is_lock q.message s.process) q.locks.now) };

    fn passes(&self, subscription: &Subscription) -> bool {
        subscription.process.as_str() == self.process
            && subscription.correlating.is_none()
            && !self
                .locks
                .is_locked(self.message, subscription.process.as_str())
    }
}
