// The packets that a batch sends.
ghost use Rattle.std.specs.Prelude.{◌≡◌, ◌≤◌, ◌++◌, IfOk, OnOk, option_and_then};
ghost use Rattle.std.specs.Option.{option_copied};
ghost use Rattle.zb_views.specs.Processes.{process_told, process_in};
ghost use Rattle.zb_record.specs.Sendings.{sending_told};
ghost use Rattle.zb_record.specs.Packets.{packet_of_definition, packet_for, kept_by, sent_by};

use std::alloc::{AllocError, Global};
use zb_model::{Batch, Event, Key, Outcome, Packet, PartitionId, ProcessDefinition};
use zb_packets::answer_packet;
use zb_record::{Sending, distribute, sending_in};
use zb_views::Distribution;

/// The packets that a batch of a partition sends, of so many partitions: those that are sent again until an event of
/// the sender ends them, in the order of the events, and then the answer, if the batch is of a packet that is answered.
/// Each costs a copy of what is sent; for a definition it goes back through the events before, to the process that is
/// sent.
pub fn packets_of(
    alloc: Global,
    batch: &Batch,
    from: PartitionId,
    partitions: u32,
) -> Result<Vec<Packet>, AllocError>
    requires { partitions ≤ 16 }
    ensures { IfOk result (λ packets. packets.items ≡ sent_by from partitions batch.now) }
{
    let mut packets = Vec::new(alloc);
    if let Outcome::Accepted(events) = &batch.outcome {
        add_kept(alloc, events.as_slice(), from, partitions, &mut packets)?;
    }
    if let Some(answer) = answer_packet(batch, from, partitions) {
        packets.push(answer)?;
    }
    Ok(packets)
}

// Adds the packets that some events send, and that are sent again.
fn add_kept(
    alloc: Global,
    events: &[Event],
    from: PartitionId,
    partitions: u32,
    packets: &mut Vec<Packet>,
) -> Result<(), AllocError>
    requires { partitions ≤ 16 }
    ensures { OnOk result (packets.new.items ≡ packets.old.items ++ kept_by from partitions events.now) }
{
    for place in 0..events.len() {
        let before = &events[..place];
        if let Some(packet) = packet_of(alloc, &events[place], before, from, partitions)? {
            packets.push(packet)?;
        }
    }
    Ok(())
}

// The packet that an event sends behind some others, if it sends one; where it sends a definition, if one of those makes
// that.
fn packet_of(
    alloc: Global,
    event: &Event,
    before: &[Event],
    from: PartitionId,
    partitions: u32,
) -> Result<Option<Packet>, AllocError>
    requires { partitions ≤ 16 }
    ensures { IfOk result (λ packet. packet ≡ option_and_then (packet_for from partitions before.now) (sending_told event.now)) }
{
    match sending_in(alloc, event)? {
        Some(Sending::Definition(distribution)) => {
            definition_packet(alloc, distribution, before, from, partitions)
        }
        Some(sending) => Ok(sending.into_packet(from, partitions)),
        None => Ok(None),
    }
}

// The packet of a definition, if one of these events makes that.
fn definition_packet(
    alloc: Global,
    distribution: Distribution,
    before: &[Event],
    from: PartitionId,
    partitions: u32,
) -> Result<Option<Packet>, AllocError>
    requires { partitions ≤ 16 }
    ensures { IfOk result (λ packet. packet ≡ packet_of_definition from partitions before.now distribution) }
{
    match process_in(distribution.definition, before) {
        Some(made) => Ok(Some(distribute(
            alloc,
            from,
            partitions,
            distribution,
            made.version,
            &made.model,
        )?)),
        None => Ok(None),
    }
}

// The process with a key, as the last of these events makes one with it.
fn process_in(key: Key, events: &[Event]) -> Option<&ProcessDefinition>
    ensures { option_copied result ≡ process_in key events.now }
{
    for place in (0..events.len()).rev() {
        if let Some(made) = process_told(key, &events[place]) {
            return Some(made);
        }
    }
    None
}

// The process that an event makes, if it has this key.
fn process_told(key: Key, event: &Event) -> Option<&ProcessDefinition>
    ensures { option_copied result ≡ process_told key event.now }
{
    match event {
        Event::ProcessCreated(made) if made.key == key => Some(made),
        _ => None,
    }
}
