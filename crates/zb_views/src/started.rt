ghost use Rattle.std.specs.Prelude.{Some, None};

use zb_lists::Listed;
use zb_model::{Key, Moment, Text};
use zb_rows::Kept;
use zb_table::{Row, Timed};

/// An instance that a message with a correlation key has started, as long as its root is there.
#[derive(Drop)]
pub struct Started {
    pub instance: Key,
    /// The id of the process that it started with.
    pub process: Text,
    /// The name of that message.
    pub name: Text,
    pub correlation_key: Text,
}

impl Row for Started {
    ghost key_in = { λ s. s.instance };

    fn key(&self) -> Key {
        self.instance
    }
}

/// It waits for no moment.
impl Timed for Started {
    ghost moment_in = { λ s. None };

    fn moment(&self) -> Option<Moment> {
        None
    }
}

/// It stands at no cell.
impl Kept for Started {
    ghost cell_in = { λ s. None };

    fn cell(&self) -> Option<Key> {
        None
    }
}

/// It is listed under its process and its correlation key.
impl Listed for Started {
    ghost label_in = { λ s. Some (s.process, s.correlation_key) };

    fn label(&self) -> Option<(&str, &str)> {
        Some((self.process.as_str(), self.correlation_key.as_str()))
    }
}
