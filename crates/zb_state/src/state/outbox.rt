// What the partition has sent, and the packets by which it has.
ghost use Rattle.std.specs.Prelude.{◌≡◌, ◌≤◌, List, IfOk};
ghost use Rattle.zb_model.specs.declared.record.Event.{Event};
ghost use Rattle.zb_views.specs.Distributions.{is_distributed_to, is_distributed};
ghost use Rattle.zb_record.specs.Packets.{packet_for, packet_of_definition, outbox_of, first_packet};
ghost use Rattle.zb_state.specs.State.{partition_of, IsStateOf};

use crate::State;
use std::alloc::{AllocError, Global};
use zb_model::{Key, Packet, TryCopy};
use zb_record::{Sending, distribute};
use zb_views::Distribution;

impl State {
    /// The packets that the partition, of so many, has sent and that no event has ended, in the order in which they were
    /// sent. Each costs a copy of what is sent; one of a definition the logarithm of how many there are, and a copy of
    /// its model.
    pub fn outbox(&self, alloc: Global, partitions: u32) -> Result<Vec<Packet>, AllocError>
        requires { partitions ≤ 16 }
        ensures { (es : List Event) → IsStateOf es self.now
            → IfOk result (λ packets. packets.items ≡ outbox_of (partition_of self.now) partitions es) }
    {
        let mut packets = Vec::new(alloc);
        for sending in self.facts.tables.sendings.sent() {
            match self.packet_for(alloc, partitions, sending) {
                Ok(Some(packet)) => packets.push(packet)?,
                Ok(None) => {}
                Err(AllocError) => return Err(AllocError),
            }
        }
        Ok(packets)
    }

    /// The first one of these packets. It costs what that one does.
    pub fn first_packet(&self, alloc: Global, partitions: u32) -> Result<Option<Packet>, AllocError>
        requires { partitions ≤ 16 }
        ensures { (es : List Event) → IsStateOf es self.now
            → IfOk result (λ packet. packet ≡ first_packet (partition_of self.now) partitions es) }
    {
        for sending in self.facts.tables.sendings.sent() {
            match self.packet_for(alloc, partitions, sending) {
                Ok(Some(packet)) => return Ok(Some(packet)),
                Ok(None) => {}
                Err(AllocError) => return Err(AllocError),
            }
        }
        Ok(None)
    }

    /// Whether this definition is on its way to this partition. It costs what `Outbox::is_sent_to` does.
    pub fn is_distributed_to(&self, definition: Key, partition: u32) -> bool
        ensures { (es : List Event) → IsStateOf es self.now → result ≡ is_distributed_to definition partition es }
    {
        self.facts.is_distributed_to(definition, partition)
    }

    /// Whether this definition is on its way to some partition. It costs what `Outbox::is_sent` does.
    pub fn is_distributed(&self, definition: Key) -> bool
        ensures { (es : List Event) → IsStateOf es self.now → result ≡ is_distributed definition es }
    {
        self.facts.is_distributed(definition)
    }

    // The packet of what is sent; `None` of a definition that isn't there.
    fn packet_for(
        &self,
        alloc: Global,
        partitions: u32,
        sending: &Sending,
    ) -> Result<Option<Packet>, AllocError>
        requires { partitions ≤ 16 }
        ensures { (es : List Event) → IsStateOf es self.now
            → IfOk result (λ packet. packet ≡ packet_for (partition_of self.now) partitions es sending.now) }
    {
        match sending {
            Sending::Definition(distribution) => {
                self.packet_of_definition(alloc, partitions, *distribution)
            }
            Sending::Opening(_) | Sending::Correlating(_) | Sending::Closing(_) => {
                match sending.copy(alloc) {
                    Ok(sending) => Ok(sending.into_packet(self.facts.place, partitions)),
                    Err(AllocError) => Err(AllocError),
                }
            }
        }
    }

    // The packet of a distribution, if its definition is there.
    fn packet_of_definition(
        &self,
        alloc: Global,
        partitions: u32,
        distribution: Distribution,
    ) -> Result<Option<Packet>, AllocError>
        requires { partitions ≤ 16 }
        ensures { (es : List Event) → IsStateOf es self.now
            → IfOk result (λ packet. packet ≡ packet_of_definition (partition_of self.now) partitions es distribution) }
    {
        let key = distribution.definition;
        let Some(version) = self.facts.game.definitions().version_under(key) else {
            return Ok(None);
        };
        let Some(graph) = self.facts.game.board().model(key) else {
            return Ok(None);
        };
        match distribute(
            alloc,
            self.facts.place,
            partitions,
            distribution,
            version,
            graph.model(),
        ) {
            Ok(packet) => Ok(Some(packet)),
            Err(AllocError) => Err(AllocError),
        }
    }
}
