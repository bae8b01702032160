// The calls of a disk in memory.
ghost use Rattle.std.specs.Prelude.{◌≡◌, ◌↔◌, [], length, IsTrue};
ghost use Rattle.std.specs.List.{Contains};

use std::alloc::Global;

/// A call, as far as it may change what a crash leaves.
#[derive(Drop)]
pub enum Call {
    /// A write.
    Wrote(Write),
    /// A sync that succeeded.
    Synced,
    /// A call that changes nothing.
    Other,
}

impl Call {
    ghost use Rattle.zb_disk.specs.Image.{is_sync};

    /// Whether it is a sync that succeeded.
    pub fn is_sync(&self) -> bool
        ensures { result ≡ is_sync self.now }
    {
        matches!(self, Call::Synced)
    }
}

/// A write of bytes from an offset on.
#[derive(Drop)]
pub struct Write {
    pub at: u64,
    pub bytes: Vec<u8>,
    /// Whether it succeeded. One that didn't may still have reached the disk.
    pub is_done: bool,
}

/// The calls so far, and which calls fail.
#[derive(Drop)]
pub struct CallLog {
    pub calls: Vec<Call>,
    pub fails: Vec<u64>,
    pub faults: u64,
}

impl CallLog {
    /// No calls yet. The calls with these numbers, from 0, will fail.
    pub fn new(alloc: Global, fails: Vec<u64>) -> CallLog
        ensures calls { result.calls.items ≡ [] }
        ensures fails { result.fails.items ≡ fails.items }
        ensures faults { result.faults ≡ 0 }
    {
        CallLog {
            calls: Vec::new(alloc),
            fails,
            faults: 0,
        }
    }

    /// Whether the next call fails.
    pub fn fails_next(&self) -> bool
        ensures { IsTrue result ↔ Contains self.now.fails.items (length self.now.calls.items) }
    {
        self.fails.contains(&(self.calls.len() as u64))
    }
}
