ghost use Rattle.std.specs.Prelude.{◌≡◌, ◌==◌, ◌&&◌, ◌+◌, ◌++◌, ◌∷◌, [], ℕ, None, not, filter, map, if◌then◌else◌, List, IsTrue, OnOk, IfOk, option_map};
ghost use Rattle.std.specs.List.{find, flat_map};
ghost use Rattle.std.specs.Option.{option_copied};
ghost use Rattle.std.specs.Str.{bytes_eq};
ghost use Rattle.zb_model.specs.declared.record.Event.{Event};
ghost use Rattle.zb_views.specs.OwnKeys.{HaveOwnKeys};
ghost use Rattle.zb_views.specs.Standing.{standing_by};
ghost use Rattle.zb_views.specs.Subscriptions.{subscription_of, subscription_sort, with_task, wants_messages};
ghost use Rattle.zb_subscriptions.specs.Opened.{is_new, kept_at, key_at, passes_place};

use crate::opened::{Correlates, Opened};
use std::alloc::{AllocError, Global};
use std::marker::Model;
use std::mem;
use zb_lists::Lists;
use zb_model::{Event, Key, MessageSubscription, TryCopy};
use zb_rows::Rows;
use zb_table::Query;
use zb_views::Subscription;

/// The subscriptions that are there, in the order in which they were opened. Contracts see the list of them.
#[derive(Drop)]
pub struct Subscriptions {
    rows: Rows<Opened>,
    // The places under the names and the correlation keys of their messages.
    lists: Lists,
    // All places so far lie below it.
    next: u64,
}

impl Model for Subscriptions {
    ghost use Rattle.std.specs.Prelude.{List, map};
    ghost use Rattle.zb_views.specs.declared.subscription.Subscription.{Subscription};
    ghost use Rattle.zb_subscriptions.specs.Opened.{AreOpened};

    ghost Value = { List Subscription };

    ghost view = { λ s. map (λ o. o.subscription) s.rows };

    ghost invariant = { λ s. AreOpened s.rows s.lists s.next };
}

impl Subscriptions {
    /// No subscriptions. It takes no memory.
    pub fn empty(alloc: Global) -> Subscriptions
        ensures { result ≡ [] }
    {
        Subscriptions {
            rows: Rows::empty(alloc),
            lists: Lists::empty(alloc),
            next: 0,
        }
    }

    /// The subscription with this key. It takes the logarithm of how many there are.
    pub fn get(&self, key: Key) -> Option<&Subscription>
        ensures found { option_copied result ≡ find (λ s. s.key == key) self.now }
        ensures own { HaveOwnKeys (λ s. s.key) self.now }
    {
        match self.rows.first_of_cell(key) {
            Some(place) => at(place, &self.rows),
            None => None,
        }
    }

    /// The keys of the subscriptions for messages of this name and correlation key, in the order in which they were opened.
    /// It takes the logarithm of how many there are for each of them.
    pub fn keys_for(
        &self,
        alloc: Global,
        name: &str,
        correlation_key: &str,
    ) -> Result<Vec<Key>, AllocError>
        ensures { IfOk result (λ keys. keys.items ≡ map (λ s. s.key) (filter (wants_messages name.now correlation_key.now) self.now)) }
    {
        keys_at(
            alloc,
            self.lists.labelled(name, correlation_key),
            &self.rows,
        )
    }

    /// The first of the subscriptions for messages of this name and correlation key that passes. It goes through these up
    /// to that one, and takes the logarithm of how many there are for each.
    pub fn first_for<Q: Query<Subscription>>(
        &self,
        name: &str,
        correlation_key: &str,
        query: &Q,
    ) -> Option<&Subscription>
        ensures { option_copied result
            ≡ find (λ s. wants_messages name.now correlation_key.now s && Q.passes query.now s) self.now }
    {
        match first_at(
            self.lists.labelled(name, correlation_key),
            &self.rows,
            query,
        ) {
            Some(place) => at(place, &self.rows),
            None => None,
        }
    }

    /// Takes in what an event says of subscriptions. After a refusal they are only dropped. It takes the logarithm of how
    /// many there are, constant time on average beside it, and where one ends a step for each behind it of its name and
    /// correlation key, or in front of it where those are fewer.
    pub fn apply(&mut self, alloc: Global, event: &Event) -> Result<(), AllocError>
        requires { IsTrue (is_new self.old event.now) }
        ensures { (before : List Event) → OnOk result (self.new ≡ standing_by subscription_sort before event.now self.old) }
    {
        match event {
            Event::MessageSubscriptionCreated(opened) => self.open(
                alloc,
                subscription(alloc, opened)?,
            ),
            Event::MessageSubscriptionCorrelating(told) => {
                self.correlate(alloc, told.subscription, Some(told.message))
            }
            Event::MessageSubscriptionCorrelated(told) => self.let_go(alloc, told.subscription),
            Event::MessageSubscriptionRejected(told) => {
                self.end(told.subscription);
                Ok(())
            }
            Event::MessageSubscriptionDeleted(key) => {
                self.end(*key);
                Ok(())
            }
            _ => Ok(()),
        }
    }

    // The subscription with this key has correlated its message: it ends with that, or correlates none from now on.
    fn let_go(&mut self, alloc: Global, key: Key) -> Result<(), AllocError>
        ensures { OnOk result (self.new ≡ map (λ s. if s.key == key then with_task None s else s)
            (filter (λ s. not ((s.key == key) && s.cancel)) self.old)) }
    {
        match self.get(key) {
            Some(subscription) if subscription.cancel => {
                self.end(key);
                Ok(())
            }
            _ => self.correlate(alloc, key, None),
        }
    }

    // A subscription is opened, behind the others. After a refusal they are only dropped.
    fn open(&mut self, alloc: Global, subscription: Subscription) -> Result<(), AllocError>
        requires { find (λ s. s.key == subscription.key) self.old ≡ None }
        ensures { OnOk result (self.new ≡ self.old ++ subscription ∷ []) }
    {
        let whole = mem::replace(self, Subscriptions::empty(alloc));
        *self = whole.with(alloc, subscription)?;
        Ok(())
    }

    // These subscriptions and one more behind them.
    fn with(
        mut self,
        alloc: Global,
        subscription: Subscription,
    ) -> Result<Subscriptions, AllocError>
        requires { find (λ s. s.key == subscription.key) self ≡ None }
        ensures { IfOk result (λ more. more ≡ self ++ subscription ∷ []) }
    {
        let place = Key::new(self.next);
        self.next = after(self.next)?;
        self.rows.add(Opened {
            place,
            subscription,
        })?;
        self.lists.join(alloc, Some(place), &self.rows)?;
        Ok(self)
    }

    // The subscription with this key correlates this message from now on, or none, if it is there. After a refusal the
    // subscriptions are only dropped.
    fn correlate(&mut self, alloc: Global, key: Key, message: Option<Key>) -> Result<(), AllocError>
        ensures { OnOk result (self.new ≡ map (λ s. if s.key == key then with_task message s else s) self.old) }
    {
        let whole = mem::replace(self, Subscriptions::empty(alloc));
        *self = whole.with_task(alloc, key, message)?;
        Ok(())
    }

    // These subscriptions with the message that one of them correlates.
    fn with_task(
        mut self,
        alloc: Global,
        key: Key,
        message: Option<Key>,
    ) -> Result<Subscriptions, AllocError>
        ensures { IfOk result (λ told. told ≡ map (λ s. if s.key == key then with_task message s else s) self) }
    {
        let Some(place) = self.rows.first_of_cell(key) else {
            return Ok(self);
        };
        self.rows.edit(alloc, place, Correlates { message })?;
        Ok(self)
    }

    // The subscription with this key has ended: it goes, if it is there.
    fn end(&mut self, key: Key)
        ensures { self.new ≡ filter (λ s. not (s.key == key)) self.old }
    {
        let Some(place) = self.rows.first_of_cell(key) else {
            return;
        };
        self.lists.leave(Some(place), &self.rows);
        drop(self.rows.take(place));
    }
}

// A subscription as it is opened: it correlates no message.
fn subscription(alloc: Global, opened: &MessageSubscription) -> Result<Subscription, AllocError>
    ensures { IfOk result (λ s. s ≡ subscription_of opened.now) }
{
    Ok(Subscription {
        key: opened.subscription,
        name: opened.name.copy(alloc)?,
        correlation_key: opened.correlation_key.copy(alloc)?,
        process: opened.process.copy(alloc)?,
        cancel: opened.cancel,
        correlating: None,
    })
}

// The place behind one. It refuses, as where there is no memory, where none is left.
fn after(place: u64) -> Result<u64, AllocError>
    ensures { IfOk result (λ next. next ≡ place + 1) }
{
    place.checked_add(1).ok_or(AllocError)
}

// The subscription at a place.
fn at(place: Key, rows: &Rows<Opened>) -> Option<&Subscription>
    ensures { option_copied result ≡ option_map (λ o. o.subscription) (kept_at rows.now place) }
{
    match rows.get(place) {
        Some(opened) => Some(&opened.subscription),
        None => None,
    }
}

// The keys of the subscriptions at some places.
fn keys_at(alloc: Global, places: &[Key], rows: &Rows<Opened>) -> Result<Vec<Key>, AllocError>
    ensures { IfOk result (λ keys. keys.items ≡ flat_map (key_at rows.now) places.now) }
{
    let mut keys = Vec::new(alloc);
    for place in places {
        match at(*place, rows) {
            Some(subscription) => keys.push(subscription.key)?,
            None => {}
        }
    }
    Ok(keys)
}

// The first of some places at which a subscription passes.
fn first_at<Q: Query<Subscription>>(places: &[Key], rows: &Rows<Opened>, query: &Q) -> Option<Key>
    ensures { result ≡ find (passes_place (Q.passes query.now) rows.now) places.now }
{
    for place in places {
        if passes_place(*place, rows, query) {
            return Some(*place);
        }
    }
    None
}

// Whether a subscription is at a place, and passes.
fn passes_place<Q: Query<Subscription>>(place: Key, rows: &Rows<Opened>, query: &Q) -> bool
    ensures { result ≡ passes_place (Q.passes query.now) rows.now place }
{
    match at(place, rows) {
        Some(subscription) => query.passes(subscription),
        None => false,
    }
}
