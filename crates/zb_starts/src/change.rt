use zb_model::Key;
use zb_views::{Lock, Started};

/// What an event changes of the locks of messages, and of the instances that messages have started.
#[derive(Drop)]
pub enum Change {
    Nothing,
    /// A message is locked for a process.
    Locked(Lock),
    /// A message is locked for a process no longer.
    Freed(Lock),
    /// A message has expired.
    Expired(Key),
    /// An instance has begun that a message starts.
    Begun(Started),
    /// An instance has ended, which a message may have started.
    Ended(Key),
}
