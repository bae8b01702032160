// Answers to packets.
ghost use Rattle.std.specs.Prelude.{◌≡◌, ◌≤◌};
ghost use Rattle.zb_record.specs.Answers as answers;

use zb_model::{Batch, Command, CommandDistribution, Packet, PartitionId};
use zb_record::{partition_of_key, verdict};

/// The answer to the packet whose command this batch has, of so many partitions, by what came of it; `None` where it is
/// no packet that is answered. It asks for no memory. Where a packet was rejected, it goes through the reason.
pub fn answer_packet(batch: &Batch, from: PartitionId, partitions: u32) -> Option<Packet>
    requires { partitions ≤ 16 }
    ensures { result ≡ answers.answer_packet from partitions batch.now }
{
    match &batch.command {
        Command::DeploymentDistribute(sent) => Some(Packet {
            from,
            to: partition_of_key(sent.key, partitions),
            command: Command::CommandDistributionAcknowledge(CommandDistribution {
                key: sent.key,
                partition: from.number(),
            }),
        }),
        Command::MessageSubscriptionCreate(opened) => Some(Packet {
            from,
            to: partition_of_key(opened.subscription, partitions),
            command: Command::ProcessMessageSubscriptionCreate(opened.subscription),
        }),
        Command::MessageSubscriptionDelete(closed) => Some(Packet {
            from,
            to: partition_of_key(closed.subscription, partitions),
            command: Command::ProcessMessageSubscriptionDelete(closed.subscription),
        }),
        Command::ProcessMessageSubscriptionCorrelate(message) => Some(Packet {
            from,
            to: partition_of_key(message.message, partitions),
            command: verdict(message, &batch.outcome)?,
        }),
        _ => None,
    }
}

/// Whether a packet is an answer, which nobody sends again.
pub fn is_answer(packet: &Packet) -> bool
    ensures { result ≡ answers.is_answer packet.now.command }
{
    matches!(
        packet.command,
        Command::CommandDistributionAcknowledge(_)
            | Command::ProcessMessageSubscriptionCreate(_)
            | Command::MessageSubscriptionCorrelate(_)
            | Command::MessageSubscriptionReject(_)
            | Command::ProcessMessageSubscriptionDelete(_)
    )
}
