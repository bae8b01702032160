ghost use Rattle.std.specs.Prelude.{◌≡◌, [], IsTrue, OnOk};

use crate::change::Change;
use crate::locks::Locks;
use crate::starts::Starts;
use std::alloc::{AllocError, Global};

/// The locks of messages, and the instances that messages have started and that are there.
#[derive(Drop)]
pub struct MessageStarts {
    pub locks: Locks,
    pub starts: Starts,
}

impl MessageStarts {
    ghost use Rattle.zb_starts.specs.Change.{begins_last, locks_by, instances_by};

    /// No locks and no instances. They take no memory.
    pub fn empty(alloc: Global) -> MessageStarts
        ensures locks { result.locks ≡ [] }
        ensures starts { result.starts ≡ [] }
    {
        MessageStarts {
            locks: Locks::empty(alloc),
            starts: Starts::empty(alloc),
        }
    }

    /// Takes a change in. It costs what `Locks::set`, `free` and `end` do, or `Starts::begin` and `Starts::end`. After a
    /// refusal both are only dropped.
    pub fn apply(&mut self, alloc: Global, change: Change) -> Result<(), AllocError>
        requires { IsTrue (begins_last change self.old.starts) }
        ensures locks { OnOk result (self.new.locks ≡ locks_by change self.old.locks) }
        ensures starts { OnOk result (self.new.starts ≡ instances_by change self.old.starts) }
    {
        match change {
            Change::Nothing => Ok(()),
            Change::Locked(lock) => self.locks.set(alloc, lock),
            Change::Freed(lock) => {
                self.locks.free(lock.message, lock.process.as_str());
                drop(lock);
                Ok(())
            }
            Change::Expired(message) => {
                self.locks.end(message);
                Ok(())
            }
            Change::Begun(started) => self.starts.begin(alloc, started),
            Change::Ended(instance) => {
                self.starts.end(instance);
                Ok(())
            }
        }
    }
}
