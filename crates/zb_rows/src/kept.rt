ghost use Rattle.std.specs.Prelude.{◌≡◌, ℕ, Option};

use zb_base::Key;
use zb_table::Row;

/// A row that may stand at a cell.
pub trait Kept: Row {
    ghost cell_in: { Self → Option ℕ };

    fn cell(&self) -> Option<Key>
        ensures { result ≡ cell_in self.now };
}
