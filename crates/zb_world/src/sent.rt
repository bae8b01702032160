// Which packets a history sends.
ghost use Rattle.std.specs.Prelude.{◌≡◌, ◌≤◌, ◌↔◌, IfOk, IsTrue, Contains, length};
ghost use Rattle.zb_record.specs.Packets.{sent_by};
ghost use Rattle.zb_world.specs.History.{IsSentAmong};

use crate::Entry;
use crate::packets::packets_of;
use std::alloc::{AllocError, Global};
use zb_model::Packet;
use zb_same::is_among;

/// Whether one of these entries of so many partitions sends the packet. It makes the packets of each entry in turn, until
/// one of them is the packet.
pub fn sent_in(
    alloc: Global,
    entries: &[Entry],
    partitions: u32,
    packet: &Packet,
) -> Result<bool, AllocError>
    requires { partitions ≤ 16 }
    ensures { IfOk result (λ sent. IsTrue sent
        ↔ IsSentAmong partitions entries.now (length entries.now) packet.now) }
{
    for entry in entries {
        if sends(alloc, entry, partitions, packet)? {
            return Ok(true);
        }
    }
    Ok(false)
}

// Whether an entry sends the packet.
fn sends(alloc: Global, entry: &Entry, partitions: u32, packet: &Packet) -> Result<bool, AllocError>
    requires { partitions ≤ 16 }
    ensures { IfOk result (λ sends. IsTrue sends
        ↔ Contains (sent_by entry.now.partition partitions entry.now.batch) packet.now) }
{
    let packets = packets_of(alloc, &entry.batch, entry.partition, partitions)?;
    Ok(is_among(packets.as_slice(), packet))
}
