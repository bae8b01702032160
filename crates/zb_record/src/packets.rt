ghost use Rattle.std.specs.Prelude.{◌≡◌, ◌≤◌, IfOk};
ghost use Rattle.zb_record.specs.Packets.{packet_with};

use crate::partitions::partition_known;
use std::alloc::{AllocError, Global};
use zb_model::{Command, Model, Packet, PartitionId, ProcessDefinition, TryCopy};
use zb_views::Distribution;

/// The packet by which a partition, of so many, sends a definition where its distribution leads. It costs a copy of
/// the model.
pub fn distribute(
    alloc: Global,
    from: PartitionId,
    partitions: u32,
    distribution: Distribution,
    version: u32,
    model: &Model,
) -> Result<Packet, AllocError>
    requires { partitions ≤ 16 }
    ensures { IfOk result (λ packet. packet ≡ packet_with from partitions distribution version model.now) }
{
    let command = Command::DeploymentDistribute(ProcessDefinition {
        key: distribution.definition,
        version,
        model: model.copy(alloc)?,
    });
    let to = partition_known(u64::from(distribution.partition), partitions);
    Ok(Packet { from, to, command })
}
