ghost use Rattle.std.specs.Prelude.{◌≡◌, ◌≤◌, length, IsTrue, None};
ghost use Rattle.std.specs.List.{list_all};
ghost use Rattle.zb_partition.specs.Partition.{is_live};

use zb_disk::Disk;
use zb_model::{PartitionId, Stop};
use zb_partition::Partition;

/// The partitions of a run, for one thread. A request is carried out on them by `Desk::ask`, which waits for nobody.
#[derive(Drop)]
pub struct Solo<D: Disk> {
    pub(crate) partitions: Vec<Partition<D>>,
    // The places that the batches of each have in the history.
    pub(crate) stamps: Vec<Vec<u64>>,
    // The place of the next one.
    pub(crate) place: u64,
    // How many units of work are done behind a request.
    pub(crate) units: u64,
    // The stop that ended the run, and the partition that met it.
    pub(crate) kept: Option<(PartitionId, Stop)>,
    ghost some: { 1 ≤ length partitions.items },
    ghost few: { length partitions.items ≤ 16 },
    ghost same: { length stamps.items ≡ length partitions.items },
    ghost live: { kept ≡ None → IsTrue (list_all is_live partitions.items) },
}
