ghost use Rattle.std.specs.Prelude.{Some, None};

use zb_lists::Listed;
use zb_model::{Key, Moment, Text};
use zb_rows::Kept;
use zb_table::{Row, Timed};

/// A timer: it is triggered once its moment has come.
#[derive(Drop)]
pub struct Timer {
    pub key: Key,
    /// The cell that waits for it.
    pub cell: Key,
    /// The node that goes on where it is triggered: the cell's own, or one beside it.
    pub node: Text,
    /// From when on it is due.
    pub due: Moment,
}

impl Row for Timer {
    ghost key_in = { λ t. t.key };

    fn key(&self) -> Key {
        self.key
    }
}

impl Timed for Timer {
    ghost moment_in = { λ t. Some t.due };

    fn moment(&self) -> Option<Moment> {
        Some(self.due)
    }
}

impl Kept for Timer {
    ghost cell_in = { λ t. Some t.cell };

    fn cell(&self) -> Option<Key> {
        Some(self.cell)
    }
}

impl Listed for Timer {
    ghost label_in = { λ t. None };

    fn label(&self) -> Option<(&str, &str)> {
        None
    }
}
