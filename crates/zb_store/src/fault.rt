ghost use Rattle.std.specs.Prelude.{◌≡◌};
ghost use Rattle.zb_store.specs.Cause.{refusal_of};
ghost use Rattle.zb_store.specs.declared.fault.StoreFault.TheVariants.{Memory};

use std::alloc::{AllocError, AllocFailed};
use thiserror::Error;
use zb_disk::Trouble;

/// Why a call of a log was refused.
#[derive(Clone, Copy, Debug, PartialEq, Eq, Error)]
pub enum StoreFault {
    /// The disk failed, and its count of faults rose.
    #[error("the disk failed")]
    DiskFault,
    /// The frame would make the log longer than its limit.
    #[error("the log has {length} bytes of {limit}, and the next frame has {frame}")]
    LogFull { length: u64, frame: u64, limit: u64 },
    /// There was no memory.
    #[error("there was no memory")]
    Memory,
}

impl From<Trouble> for StoreFault {
    ghost from_gives = { λ trouble fault. fault ≡ refusal_of trouble };

    fn from(trouble: Trouble) -> Self {
        match trouble {
            Trouble::Failed => StoreFault::DiskFault,
            Trouble::Memory => StoreFault::Memory,
        }
    }
}

impl From<AllocError> for StoreFault {
    ghost from_gives = { λ _ fault. fault ≡ Memory };

    fn from(_: AllocError) -> Self {
        StoreFault::Memory
    }
}

impl<T: Drop> From<AllocFailed<T>> for StoreFault {
    ghost from_gives = { λ _ fault. fault ≡ Memory };

    fn from(_: AllocFailed<T>) -> Self {
        StoreFault::Memory
    }
}
