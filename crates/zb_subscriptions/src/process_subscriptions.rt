ghost use Rattle.std.specs.Prelude.{◌≡◌, ◌==◌, ◌++◌, ◌∷◌, [], List, IsTrue, OnOk, IfOk, map};
ghost use Rattle.std.specs.List.{find};
ghost use Rattle.std.specs.Option.{option_copied};
ghost use Rattle.zb_table.specs.Rows.{Ascend, are_below, without};
ghost use Rattle.zb_model.specs.declared.record.Event.{Event};
ghost use Rattle.zb_views.specs.ProcessSubscriptions.{process_subscription_changed, process_subscription_of, process_subscription_sort};
ghost use Rattle.zb_views.specs.Standing.{standing_by};
ghost use Rattle.zb_subscriptions.specs.Waiting.{has_place_for_waiting, waiting_keys_on, ChangesNoOther};

use crate::waiting::{AsTold, opened, says_nothing};
use std::alloc::{AllocError, Global};
use std::marker::Model;
use zb_model::{Event, Key, List, ProcessMessageSubscriptionCreating};
use zb_rows::Rows;
use zb_views::ProcessSubscription;

/// The subscriptions of the element instances of a partition, in the order of their keys. Contracts see the list of
/// them.
#[derive(Drop)]
pub struct ProcessSubscriptions {
    rows: Rows<ProcessSubscription>,
}

impl Model for ProcessSubscriptions {
    ghost use Rattle.std.specs.Prelude.{List};
    ghost use Rattle.zb_views.specs.declared.process_subscription.ProcessSubscription.{ProcessSubscription};

    ghost Value = { List ProcessSubscription };

    ghost view = { λ s. s.rows };
}

impl ProcessSubscriptions {
    /// No subscriptions. It takes no memory.
    pub fn empty(alloc: Global) -> ProcessSubscriptions
        ensures { result ≡ [] }
    {
        ProcessSubscriptions {
            rows: Rows::empty(alloc),
        }
    }

    /// The subscription with this key. It takes the logarithm of how many there are.
    pub fn get(&self, key: Key) -> Option<&ProcessSubscription>
        ensures found { option_copied result ≡ find (λ s. s.key == key) self.now }
        ensures order { Ascend (λ s. s.key) 0 self.now }
    {
        self.rows.get(key)
    }

    /// The keys of the subscriptions of this cell, ascending. It takes the logarithm of how many there are, and a step
    /// for each of the cell.
    pub fn on(&self, alloc: Global, cell: Key) -> Result<List<Key>, AllocError>
        ensures keys { IfOk result (λ keys. keys ≡ waiting_keys_on cell self.now) }
        ensures order { IfOk result (λ keys. Ascend (λ key. key) 0 keys) }
    {
        Ok(List::from_vec(self.rows.of_cell(alloc, cell)?))
    }

    /// Takes in what an event says of these subscriptions. After a refusal they are only dropped. It takes the logarithm
    /// of how many there are, on average.
    pub fn apply(&mut self, alloc: Global, event: &Event) -> Result<(), AllocError>
        requires { IsTrue (has_place_for_waiting self.old event.now) }
        ensures { (before : List Event) → OnOk result (self.new ≡ standing_by process_subscription_sort before event.now self.old) }
    {
        if says_nothing(event) {
            return Ok(());
        }
        match event {
            Event::ProcessMessageSubscriptionCreating(e) => self.open(alloc, e),
            Event::ProcessMessageSubscriptionDeleted(key) => {
                self.rows.take(*key);
                Ok(())
            }
            Event::ProcessMessageSubscriptionCreated(key) => self.change(alloc, *key, event),
            Event::ProcessMessageSubscriptionCorrelated(e) => {
                self.change(alloc, e.subscription, event)
            }
            Event::ProcessMessageSubscriptionDeleting(e) => {
                self.change(alloc, e.subscription, event)
            }
            _ => Ok(()),
        }
    }

    // Adds the subscription that is opened.
    fn open(
        &mut self,
        alloc: Global,
        told: &ProcessMessageSubscriptionCreating,
    ) -> Result<(), AllocError>
        requires { IsTrue (are_below (λ s. s.key) told.now.subscription self.old) }
        ensures { OnOk result (self.new ≡ self.old ++ process_subscription_of told.now ∷ []) }
    {
        let subscription = opened(alloc, told)?;
        self.rows.add(subscription)
    }

    // Changes the subscription with a key as the event says, which changes no other one.
    fn change(&mut self, alloc: Global, key: Key, event: &Event) -> Result<(), AllocError>
        requires { ChangesNoOther key event.now }
        ensures { OnOk result (self.new ≡ map (process_subscription_changed event.now) self.old) }
    {
        self.rows.edit(alloc, key, AsTold { event })
    }
}
