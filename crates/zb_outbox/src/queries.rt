// What is looked for among sendings.
ghost use Rattle.std.specs.Prelude.{◌==◌, false};
ghost use Rattle.zb_record.specs.Sendings.{ends_sending};
ghost use Rattle.zb_outbox.specs.Keys.{is_of_definition, is_to_partition};

use zb_model::{Event, Key};
use zb_record::{Sending, ends_sending};
use zb_table::Query;

/// Whether an event ends a sending.
#[derive(Drop)]
pub struct EndedBy<'a> {
    pub event: &'a Event,
}

impl<'a> Query<Sending> for EndedBy<'a> {
    ghost passes = { λ q s. ends_sending q.event.now s };

    fn passes(&self, sending: &Sending) -> bool {
        ends_sending(self.event, sending)
    }
}

/// Whether a sending is of this definition.
#[derive(Drop)]
pub struct OfDefinition {
    pub definition: Key,
}

impl Query<Sending> for OfDefinition {
    ghost passes = { λ q s. is_of_definition q.definition s };

    fn passes(&self, sending: &Sending) -> bool {
        match sending {
            Sending::Definition(distribution) => distribution.definition == self.definition,
            _ => false,
        }
    }
}

/// Whether a sending is of this definition, to this partition.
#[derive(Drop)]
pub struct ToPartition {
    pub definition: Key,
    pub partition: u32,
}

impl Query<Sending> for ToPartition {
    ghost passes = { λ q s. is_to_partition q.definition q.partition s };

    fn passes(&self, sending: &Sending) -> bool {
        match sending {
            Sending::Definition(distribution) => {
                distribution.definition == self.definition
                    && distribution.partition == self.partition
            }
            _ => false,
        }
    }
}
