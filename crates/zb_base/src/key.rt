ghost use Rattle.std.specs.Prelude.{◌≡◌, ◌<◌, ◌^◌, ◌/◌, ◌%◌};
ghost use Rattle.zb_base.specs.Key.{key_of};

use crate::{PartitionId, TryCopy};
use std::alloc::{AllocError, Global};
use std::marker::Model;

/// The name of a thing: the partition that drew it, and a counter of that partition.
#[derive(Clone, Copy, Debug, PartialEq, Eq, PartialOrd, Ord)]
pub struct Key(u64);

impl Model for Key {
    ghost use Rattle.std.specs.Prelude.{ℕ};

    ghost Value = { ℕ };

    ghost view = { λ k. k.0 };

    ghost inverse = { λ n. record { 0 = n } };
}

impl Key {
    /// How many counters a partition has.
    pub const COUNTERS: u64 = 1 << 51;

    /// The key that partition `p` draws with the counter `n`.
    pub fn make(p: PartitionId, n: u64) -> Key
        requires { n < 2 ^ 51 }
        ensures { result ≡ key_of p n }
    {
        Key(u64::from(p.number()) * Key::COUNTERS + n)
    }

    /// The key with this number, whether or not a partition draws it.
    pub fn new(number: u64) -> Key
        ensures { result ≡ number }
    {
        Key(number)
    }

    /// The key as a number.
    pub fn number(self) -> u64
        ensures { result ≡ self }
    {
        self.0
    }

    /// The number of the partition that draws this key.
    pub fn partition(self) -> u64
        ensures { result ≡ self / 2 ^ 51 }
    {
        self.0 / Key::COUNTERS
    }

    /// The counter with which this key is drawn.
    pub fn counter(self) -> u64
        ensures { result ≡ self % 2 ^ 51 }
    {
        self.0 % Key::COUNTERS
    }
}

impl TryCopy for Key {
    fn copy(&self, _alloc: Global) -> Result<Key, AllocError> {
        Ok(*self)
    }
}
