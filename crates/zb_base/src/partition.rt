ghost use Rattle.std.specs.Prelude.{◌≡◌, ◌≤◌};
ghost use Rattle.zb_base.specs.Key as spec;

use std::marker::Model;

/// The number of a partition, from 1 to 16.
#[derive(Clone, Copy, Debug, PartialEq, Eq, PartialOrd, Ord)]
pub struct PartitionId(u32);

impl Model for PartitionId {
    ghost use Rattle.std.specs.Prelude.{ℕ, ◌≤◌};

    ghost Value = { ℕ };

    ghost view = { λ p. p.0 };

    ghost invariant = { λ p. (1 ≤ p.0) × (p.0 ≤ 16) };

    ghost inverse = { λ n. record { 0 = n } };
}

impl PartitionId {
    /// The partition with this number.
    pub fn new(number: u32) -> PartitionId
        requires from { 1 ≤ number }
        requires to { number ≤ 16 }
        ensures { result ≡ number }
    {
        PartitionId(number)
    }

    /// The number, from 1 to 16.
    pub fn number(self) -> u32
        ensures value { result ≡ self }
        ensures from { 1 ≤ result }
        ensures to { result ≤ 16 }
    {
        self.0
    }
}

/// The partition at which the messages with this correlation key live, among so many.
/// It takes one step for each byte of the key.
pub fn home_of(key: &[u8], partitions: u32) -> PartitionId
    requires from { 1 ≤ partitions }
    requires to { partitions ≤ 16 }
    ensures { result ≡ spec.home_of key.now partitions }
{
    PartitionId(hash_of(key) % partitions + 1)
}

/// A number of 32 bits for these bytes: the same for the same ones, and mostly another one for others. It takes one step
/// for each of them.
pub fn hash_of(bytes: &[u8]) -> u32
    ensures { result ≡ spec.hash_of bytes.now }
{
    let mut hash: u32 = 0;
    for byte in bytes {
        hash = hash.wrapping_mul(31).wrapping_add(u32::from(*byte));
    }
    hash
}
