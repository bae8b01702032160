ghost use Rattle.std.specs.Prelude.{◌≡◌};
ghost use Rattle.zb_store.specs.declared.fault.StoreFault.{StoreFault};
ghost use Rattle.zb_partition.specs.Fault.{open_fault_of};
ghost use Rattle.zb_partition.specs.declared.fault.OpenFault.TheVariants.{Memory};

use std::alloc::{AllocError, AllocFailed};
use thiserror::Error;
use zb_store::StoreFault;

/// Why a partition could not be opened.
#[derive(Clone, Copy, Debug, PartialEq, Eq, Error)]
pub enum OpenFault {
    /// The disk failed, and its count of faults rose.
    #[error("the disk failed")]
    DiskFault,
    /// The frame with this number, from 0, can't be read.
    #[error("frame {frame} of the log, counted from 0, can't be read; it was left as it is")]
    BadLog { frame: u64 },
    /// There was no memory.
    #[error("there was no memory")]
    Memory,
}

impl From<StoreFault> for OpenFault {
    ghost from_gives = { λ stored fault. fault ≡ open_fault_of stored };

    fn from(fault: StoreFault) -> Self {
        match fault {
            StoreFault::DiskFault => OpenFault::DiskFault,
            StoreFault::LogFull { .. } | StoreFault::Memory => OpenFault::Memory,
        }
    }
}

impl From<AllocError> for OpenFault {
    ghost from_gives = { λ _ fault. fault ≡ Memory };

    fn from(_: AllocError) -> Self {
        OpenFault::Memory
    }
}

impl<T: Drop> From<AllocFailed<T>> for OpenFault {
    ghost from_gives = { λ _ fault. fault ≡ Memory };

    fn from(_: AllocFailed<T>) -> Self {
        OpenFault::Memory
    }
}
