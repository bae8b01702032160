ghost use Rattle.std.specs.Prelude.{◌≡◌, ℕ, Bool, Option, is_none};

use zb_base::{Key, Moment};

/// What stands in a table, under its key.
pub trait Row: Drop {
    ghost key_in: { Self → ℕ };

    fn key(&self) -> Key
        ensures { result ≡ key_in self.now };
}

/// A key alone is a row too.
impl Row for Key {
    ghost key_in = { λ k. k };

    fn key(&self) -> Key {
        *self
    }
}

/// A row that may wait for a moment.
pub trait Timed: Row {
    ghost moment_in: { Self → Option ℕ };

    fn moment(&self) -> Option<Moment>
        ensures { result ≡ moment_in self.now };
}

/// A question that a row passes or not.
pub trait Query<R> {
    ghost passes: { Self → R → Bool };

    fn passes(&self, row: &R) -> bool
        ensures { result ≡ passes self.now row.now };
}

/// A place of a table. It is empty where its row was removed.
#[derive(Drop)]
pub struct Place<R: Drop> {
    pub key: Key,
    pub row: Option<R>,
}

impl<R: Row> Place<R> {
    /// Puts a row in, and tells whether there was none.
    pub fn fill(&mut self, row: R) -> bool
        ensures row { self.new ≡ record self.old { row = Some row } }
        ensures empty { result ≡ is_none self.old.row }
    {
        self.row.replace(row).is_none()
    }
}
