ghost use Rattle.std.specs.Prelude.{◌≡◌};
ghost use Rattle.zb_show.specs.Status.{status_shown, fault_status};
ghost use Rattle.zb_show.specs.declared.fault.ShowFault.TheVariants as faults;

use std::alloc::{AllocError, AllocFailed};
use thiserror::Error;
use zb_outside::Trouble;
use zb_partition::OpenFault;

/// Why a log was not shown.
#[derive(Clone, Copy, Debug, Drop, Error)]
pub enum ShowFault {
    /// The words ask for no log.
    #[error("the words ask for no log")]
    Usage,
    /// The log could not be read.
    #[error(transparent)]
    Log(OpenFault),
    /// The sink refused a line.
    #[error("a line could not be written: {0}")]
    Sink(Trouble),
    #[error("there was no memory")]
    Memory,
}

impl From<OpenFault> for ShowFault {
    ghost from_gives = { λ fault made. made ≡ faults.Log fault };

    fn from(fault: OpenFault) -> Self {
        ShowFault::Log(fault)
    }
}

impl From<Trouble> for ShowFault {
    ghost from_gives = { λ trouble made. made ≡ faults.Sink trouble };

    fn from(trouble: Trouble) -> Self {
        ShowFault::Sink(trouble)
    }
}

impl From<AllocError> for ShowFault {
    ghost from_gives = { λ _ fault. fault ≡ faults.Memory };

    fn from(_: AllocError) -> Self {
        ShowFault::Memory
    }
}

impl<T: Drop> From<AllocFailed<T>> for ShowFault {
    ghost from_gives = { λ _ fault. fault ≡ faults.Memory };

    fn from(_: AllocFailed<T>) -> Self {
        ShowFault::Memory
    }
}

/// The exit status of what came of showing a log.
pub fn status(shown: Result<(), ShowFault>) -> u8
    ensures { result ≡ status_shown shown }
{
    match shown {
        Ok(()) => 0,
        Err(fault) => fault_status(fault),
    }
}

// The exit status of a fault.
fn fault_status(fault: ShowFault) -> u8
    ensures { result ≡ fault_status fault }
{
    match fault {
        ShowFault::Usage => 2,
        ShowFault::Log(OpenFault::DiskFault) => 4,
        ShowFault::Log(OpenFault::BadLog { .. }) => 5,
        ShowFault::Sink(Trouble::Failed) => 6,
        ShowFault::Log(OpenFault::Memory) | ShowFault::Sink(Trouble::Memory) | ShowFault::Memory =>
            7,
    }
}
