ghost use Rattle.std.specs.Prelude.{◌≡◌, IfOk};

use crate::Row;
use std::alloc::AllocError;

/// What is made of a row. Its key stays.
pub trait Edit<R: Row>: Drop {
    ghost edits: { Self → R → R };

    fn edit(self, row: R) -> Result<R, AllocError>
        ensures row { IfOk result (λ edited. edited ≡ edits self row) }
        ensures key { IfOk result (λ edited. R.key_in edited ≡ R.key_in row) };
}
