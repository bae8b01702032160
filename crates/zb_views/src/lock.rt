use zb_model::{Key, Text};
use zb_queue::Queued;

/// A message is locked for a process: it is being correlated with an instance of it, or was, or has started one.
#[derive(Drop)]
pub struct Lock {
    pub message: Key,
    /// The id of the process.
    pub process: Text,
}

/// A lock stands under the key of its message.
impl Queued for Lock {
    ghost name_in = { λ l. l.message };

    fn name(&self) -> Key {
        self.message
    }
}
