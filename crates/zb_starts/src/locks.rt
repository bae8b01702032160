ghost use Rattle.std.specs.Prelude.{◌≡◌, ◌==◌, ◌++◌, ◌∷◌, [], not, filter, OnOk};
ghost use Rattle.std.specs.List.{list_any};
ghost use Rattle.std.specs.Str.{bytes_eq};
ghost use Rattle.zb_views.specs.Subscriptions.{is_lock};

use std::alloc::{AllocError, Global};
use std::marker::Model;
use zb_model::Key;
use zb_queue::Queue;
use zb_table::Query;
use zb_views::Lock;

/// The locks of messages, in the order in which they were set. Contracts see the list of them.
#[derive(Drop)]
pub struct Locks {
    locks: Queue<Lock>,
}

impl Model for Locks {
    ghost use Rattle.std.specs.Prelude.{List};
    ghost use Rattle.zb_views.specs.declared.lock.Lock.{Lock};

    ghost Value = { List Lock };

    ghost view = { λ l. l.locks };
}

impl Locks {
    /// No locks. It takes no memory.
    pub fn empty(alloc: Global) -> Locks
        ensures { result ≡ [] }
    {
        Locks {
            locks: Queue::empty(alloc),
        }
    }

    /// Whether a message is locked for a process. It takes the logarithm of how many locks there are, for each of the
    /// message up to the one that is found.
    pub fn is_locked(&self, message: Key, process: &str) -> bool
        ensures { result ≡ list_any (is_lock message process.now) self.now }
    {
        self.locks.any_under(message, &ForProcess { process })
    }

    /// Sets a lock of a message for a process. After a refusal the locks are only dropped. It takes the logarithm of how many
    /// there are.
    pub fn set(&mut self, alloc: Global, lock: Lock) -> Result<(), AllocError>
        ensures { OnOk result (self.new ≡ self.old ++ lock ∷ []) }
    {
        self.locks.push(alloc, lock)
    }

    /// Frees a message for a process: each of its locks for it goes. It takes what `is_locked` does, once for each that
    /// goes and once more.
    pub fn free(&mut self, message: Key, process: &str)
        ensures { self.new ≡ filter (λ l. not (is_lock message process.now l)) self.old }
    {
        self.locks.end_under(message, &ForProcess { process });
    }

    /// A message has expired: each of its locks goes. It takes the logarithm of how many locks there are, once for each
    /// that goes and once more.
    pub fn end(&mut self, message: Key)
        ensures { self.new ≡ filter (λ l. not (l.message == message)) self.old }
    {
        self.locks.end_under(message, &OfMessage { message });
    }
}

// Whether a lock is for this process.
#[derive(Drop)]
struct ForProcess<'a> {
    process: &'a str,
}

impl<'a> Query<Lock> for ForProcess<'a> {
    ghost passes = { λ q l. bytes_eq l.process q.process.now };

    fn passes(&self, lock: &Lock) -> bool {
        lock.process.as_str() == self.process
    }
}

// Whether a lock is of this message.
#[derive(Drop)]
struct OfMessage {
    message: Key,
}

impl Query<Lock> for OfMessage {
    ghost passes = { λ q l. l.message == q.message };

    fn passes(&self, lock: &Lock) -> bool {
        lock.message == self.message
    }
}
