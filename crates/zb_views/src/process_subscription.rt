ghost use Rattle.std.specs.Prelude.{◌≡◌, Some};
ghost use Rattle.zb_views.specs.ProcessSubscriptions.{has_kept, is_being_created, is_being_deleted};

use crate::given::Given;
use zb_model::{Key, Text};
use zb_rows::Kept;
use zb_table::Row;

/// Where the subscription of an element instance is in its life.
#[derive(Clone, Copy, Debug, PartialEq, Eq)]
pub enum WaitPhase {
    /// The home of its messages hasn't said yet that it has it.
    Creating,
    Created,
    /// The home of its messages hasn't said yet that it is gone there.
    Deleting,
}

impl WaitPhase {
    /// Whether a subscription in this phase is being created.
    pub fn is_being_created(self) -> bool
        ensures { result ≡ is_being_created self }
    {
        matches!(self, WaitPhase::Creating)
    }

    /// Whether one is being deleted.
    pub fn is_being_deleted(self) -> bool
        ensures { result ≡ is_being_deleted self }
    {
        matches!(self, WaitPhase::Deleting)
    }
}

/// The subscription of an element instance, at the partition of that: it waits for messages at a node.
#[derive(Drop)]
pub struct ProcessSubscription {
    pub key: Key,
    /// The cell that waits.
    pub cell: Key,
    /// The node that goes on with a message: the cell's own, or one beside it.
    pub node: Text,
    /// The name of its messages.
    pub name: Text,
    pub correlation_key: Text,
    /// The id of the process of the instance.
    pub process: Text,
    /// Whether it ends with the first message that it is given.
    pub cancel: bool,
    pub phase: WaitPhase,
    /// The messages that it was given, in that order.
    pub kept: Given,
}

impl ProcessSubscription {
    /// Whether it was given this message before. It takes the logarithm of how many it was given.
    pub fn has_kept(&self, message: Key) -> bool
        ensures { result ≡ has_kept message self.now }
    {
        self.kept.has(message)
    }
}

impl Row for ProcessSubscription {
    ghost key_in = { λ s. s.key };

    fn key(&self) -> Key {
        self.key
    }
}

impl Kept for ProcessSubscription {
    ghost cell_in = { λ s. Some s.cell };

    fn cell(&self) -> Option<Key> {
        Some(self.cell)
    }
}
