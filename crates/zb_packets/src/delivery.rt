// What takes a packet.
ghost use Rattle.std.specs.Prelude.{◌≡◌, option_map};
ghost use Rattle.zb_record.specs.Packets as packet_spec;

use zb_model::{Command, Packet, PartitionId};

/// What takes a packet, if there is one: a command, at the partition that the packet goes to.
pub fn delivery_of(packet: Option<Packet>) -> Option<(PartitionId, Command)>
    ensures { result ≡ option_map packet_spec.delivery_of packet }
{
    match packet {
        Some(packet) => Some((packet.to, packet.command)),
        None => None,
    }
}
