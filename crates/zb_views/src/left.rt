ghost use Rattle.std.specs.Prelude.{◌≡◌};
ghost use Rattle.zb_views.specs.Left.{leaves_root, leaves_cancel, leaves_deletion};

use crate::Begun;
use zb_model::Key;

/// What the last event of a log leaves to be said by the next one.
#[derive(Clone, Copy, Debug, PartialEq, Eq)]
pub enum Left {
    Nothing,
    /// The root of an instance that has begun.
    Root(Begun),
    /// That this job is canceled: its cell begins to terminate.
    Cancels(Key),
    /// That this subscription is deleted, which has given up its message; it may stand so.
    Deletes(Key),
}

impl Left {
    /// Whether it is the root of the instance with this key, of this definition.
    pub fn leaves_root(self, instance: Key, definition: Key) -> bool
        ensures { result ≡ leaves_root instance definition self }
    {
        match self {
            Left::Root(begun) => begun.key == instance && begun.definition == definition,
            Left::Nothing | Left::Cancels(_) | Left::Deletes(_) => false,
        }
    }

    /// Whether it is that this job is canceled.
    pub fn leaves_cancel(self, job: Key) -> bool
        ensures { result ≡ leaves_cancel job self }
    {
        match self {
            Left::Cancels(canceled) => canceled == job,
            Left::Nothing | Left::Root(_) | Left::Deletes(_) => false,
        }
    }

    /// Whether it is that this subscription is deleted.
    pub fn leaves_deletion(self, subscription: Key) -> bool
        ensures { result ≡ leaves_deletion subscription self }
    {
        match self {
            Left::Deletes(deleted) => deleted == subscription,
            Left::Nothing | Left::Root(_) | Left::Cancels(_) => false,
        }
    }
}
