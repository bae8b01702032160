ghost use Rattle.std.specs.Prelude.{◌≡◌, ◌==◌, ◌++◌, [], List, not, filter, OnOk};
ghost use Rattle.std.specs.List.{list_any};
ghost use Rattle.zb_model.specs.declared.record.Event.{Event};
ghost use Rattle.zb_views.specs.Standing.{begun_by, standing_by};
ghost use Rattle.zb_views.specs.Distributions.{is_that};
ghost use Rattle.zb_record.specs.Sendings.{sending_told, ends_sending, sending_sort, distributions_sent};

use crate::keys::ending_key;
use crate::queries::{EndedBy, OfDefinition, ToPartition};
use std::alloc::{AllocError, Global};
use std::collections::btree_map::Values;
use std::marker::Model;
use zb_model::{Event, Key};
use zb_queue::Queue;
use zb_record::{Sending, sending_in};

/// What a partition has sent and no event has ended, in the order in which it began. Contracts see the list of it.
#[derive(Drop)]
pub struct Outbox {
    sent: Queue<Sending>,
}

impl Model for Outbox {
    ghost use Rattle.std.specs.Prelude.{List};
    ghost use Rattle.zb_record.specs.declared.sending.Sending.{Sending};

    ghost Value = { List Sending };

    ghost view = { λ o. o.sent };
}

impl Outbox {
    /// Nothing is sent. It takes no memory.
    pub fn empty(alloc: Global) -> Outbox
        ensures { result ≡ [] }
    {
        Outbox {
            sent: Queue::empty(alloc),
        }
    }

    /// What is sent, in the order in which it began. It takes a step for each.
    pub fn sent(&self) -> Values<'_, u64, Sending>
        ensures { result ≡ self.now }
    {
        self.sent.rows()
    }

    /// Whether a definition is on its way to the partition with this number. It takes the logarithm of how much is sent,
    /// for each partition to which that definition is.
    pub fn is_sent_to(&self, definition: Key, partition: u32) -> bool
        ensures { result ≡ list_any (is_that definition partition) (distributions_sent self.now) }
    {
        let query = ToPartition {
            definition,
            partition,
        };
        self.sent.any_under(definition, &query)
    }

    /// Whether a definition is on its way to some partition. It takes the logarithm of how much is sent.
    pub fn is_sent(&self, definition: Key) -> bool
        ensures { result ≡ list_any (λ d. d.definition == definition) (distributions_sent self.now) }
    {
        self.sent
            .any_under(definition, &OfDefinition { definition })
    }

    /// Takes in what an event says of what is sent: what it ends goes, and what it begins comes behind all. After a
    /// refusal it is only dropped. It takes the logarithm of how much is sent, for each that stands under the key that
    /// the event names and again for those in front of each that it ends, and a copy of what it begins.
    pub fn apply(&mut self, alloc: Global, event: &Event) -> Result<(), AllocError>
        ensures { (before : List Event) → OnOk result (self.new ≡ standing_by sending_sort before event.now self.old) }
    {
        self.end(event);
        self.begin(alloc, event)
    }

    // Takes away what an event ends.
    fn end(&mut self, event: &Event)
        ensures { self.new ≡ filter (λ s. not (ends_sending event.now s)) self.old }
    {
        if let Some(key) = ending_key(event) {
            self.sent.end_under(key, &EndedBy { event });
        }
    }

    // Puts what an event begins behind all.
    fn begin(&mut self, alloc: Global, event: &Event) -> Result<(), AllocError>
        ensures { OnOk result (self.new ≡ self.old ++ begun_by (sending_told event.now)) }
    {
        match sending_in(alloc, event)? {
            Some(sending) => self.sent.push(alloc, sending),
            None => Ok(()),
        }
    }
}
