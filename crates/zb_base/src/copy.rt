ghost use Rattle.std.specs.Prelude.{◌≡◌, IfOk};

use std::alloc::{AllocError, Global};

/// What can be copied where there is memory.
pub trait TryCopy: Drop {
    /// An equal value. It takes a step for each part of the value.
    fn copy(&self, alloc: Global) -> Result<Self, AllocError>
        ensures { IfOk result (λ copy. copy ≡ self.now) };
}

impl TryCopy for i64 {
    fn copy(&self, _alloc: Global) -> Result<i64, AllocError> {
        Ok(*self)
    }
}

impl<T: TryCopy> TryCopy for Option<T> {
    fn copy(&self, alloc: Global) -> Result<Option<T>, AllocError> {
        match self {
            Some(value) => Ok(Some(value.copy(alloc)?)),
            None => Ok(None),
        }
    }
}
