ghost use Rattle.std.specs.Prelude.{◌≡◌, ◌≤◌, ◌<◌, ◌+◌, ◌++◌, ◌∷◌, map, vec_len, vec_capacity};
ghost use Rattle.zb_serve.specs.Running.{files_of, first_writing};

use zb_disk::Disk;
use zb_model::Batch;
use zb_partition::{Partition, Stopped};
use zb_store::Volume;

/// Puts the files of partitions behind other volumes, in order, and tells the batch that the first
/// of them was writing that was writing one. It takes no memory.
pub fn close_all<D: Disk>(
    mut partitions: Vec<Partition<D>>,
    mut volumes: Vec<Volume<D>>,
) -> (Vec<Volume<D>>, Option<Batch>)
    requires room { vec_len volumes + vec_len partitions ≤ vec_capacity volumes }
    ensures volumes { result.0.items ≡ volumes.items ++ map files_of partitions.items }
    ensures in_writing { result.1 ≡ first_writing partitions.items }
    ensures capacity { vec_capacity result.0 ≡ vec_capacity volumes }
{
    let mut writing = None;
    for _ in 0..partitions.len() {
        let Stopped { volume, in_writing } = partitions.remove(0).stopped();
        writing = writing.or(in_writing);
        volumes.push_reserved(volume);
    }
    partitions.destroy_empty();
    (volumes, writing)
}

/// Puts the files of partitions behind other volumes, in order. It takes no memory.
pub fn close_behind<D: Disk>(
    partitions: Vec<Partition<D>>,
    volumes: Vec<Volume<D>>,
) -> Vec<Volume<D>>
    requires room { vec_len volumes + vec_len partitions ≤ vec_capacity volumes }
    ensures volumes { result.items ≡ volumes.items ++ map files_of partitions.items }
    ensures capacity { vec_capacity result ≡ vec_capacity volumes }
{
    let (volumes, writing) = close_all(partitions, volumes);
    Batch::discard_any(writing);
    volumes
}

/// All volumes in order, where one wasn't opened: those of the partitions that were opened before
/// it, this one, and those that are left. It takes no memory.
pub fn hand_back<D: Disk>(
    partitions: Vec<Partition<D>>,
    refused: Volume<D>,
    left: Vec<Volume<D>>,
) -> Vec<Volume<D>>
    requires room { vec_len left + vec_len partitions < vec_capacity left }
    ensures { result.items ≡ map files_of partitions.items ++ refused ∷ left.items }
{
    let others = left.len();
    let mut volumes = close_behind(partitions, left);
    volumes.push_reserved(refused);
    volumes.rotate_left(others);
    volumes
}
