ghost use Rattle.std.specs.Prelude.{◌≡◌, ℕ};

use zb_base::Key;
use zb_table::Row;

/// What stands in a group, and there at a place.
pub trait Grouped: Drop {
    ghost group_in: { Self → ℕ };

    ghost place_in: { Self → ℕ };

    fn group(&self) -> Key
        ensures { result ≡ group_in self.now };

    /// A number of the group and of where it stands there: the same for the same, and mostly another one for others.
    fn place(&self) -> Key
        ensures { result ≡ place_in self.now };
}

/// A row under the number that it got when it came.
#[derive(Drop)]
pub struct Held<R: Grouped> {
    pub number: Key,
    pub row: R,
}

impl<R: Grouped> Row for Held<R> {
    ghost key_in = { λ h. h.number };

    fn key(&self) -> Key {
        self.number
    }
}
