// Which partition a number, a key or a message names.
ghost use Rattle.std.specs.Prelude.{◌≡◌, ◌≤◌};
ghost use Rattle.zb_record.specs.Partitions as spec;

use zb_model::{Key, PartitionId, home_of};

/// The partition with this number, of so many; the first one where there is none with it.
pub fn partition_known(number: u64, partitions: u32) -> PartitionId
    requires { partitions ≤ 16 }
    ensures { result ≡ spec.partition_known partitions number }
{
    if number < 1 || u64::from(partitions) < number {
        return PartitionId::new(1);
    }
    PartitionId::new(number as u32)
}

/// The partition that a key names, of so many; the first one where it names none.
pub fn partition_of_key(key: Key, partitions: u32) -> PartitionId
    requires { partitions ≤ 16 }
    ensures { result ≡ spec.partition_of_key partitions key }
{
    partition_known(key.partition(), partitions)
}

/// The partition at which the messages with this correlation key live, of so many; the first one where there are none.
/// It takes one step for each byte of the key.
pub fn home_known(key: &[u8], partitions: u32) -> PartitionId
    requires { partitions ≤ 16 }
    ensures { result ≡ spec.home_known partitions key.now }
{
    if partitions < 1 {
        return PartitionId::new(1);
    }
    home_of(key, partitions)
}
