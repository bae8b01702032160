ghost use Rattle.std.specs.Prelude.{◌≡◌, ◌≤◌, ◌+◌};

use zb_model::{Batch, PartitionId};

/// An entry of a history: a batch, and the partition that made it.
#[derive(Drop)]
pub struct Entry {
    pub partition: PartitionId,
    pub batch: Batch,
}

/// The partition at a place in the list of all, where the first one stands at 0.
pub fn partition_at(place: usize) -> PartitionId
    requires { place + 1 ≤ 16 }
    ensures { result ≡ place + 1 }
{
    PartitionId::new(place as u32 + 1)
}
