ghost use Rattle.std.specs.Prelude.{◌≡◌};
ghost use Rattle.zb_model.specs.declared.stop.TableFault.{TableFault};
ghost use Rattle.zb_state.specs.Refusal.{refusal_of_fault};
ghost use Rattle.zb_state.specs.declared.refusal.Refusal.TheVariants.{Memory};

use std::alloc::{AllocError, AllocFailed};
use thiserror::Error;
use zb_model::TableFault;

/// Why events were not put.
#[derive(Clone, Copy, Debug, PartialEq, Eq, Error)]
pub enum Refusal {
    #[error("there was no memory")]
    Memory,
    /// An event doesn't apply.
    #[error("an event doesn't apply")]
    Misfit,
}

impl From<TableFault> for Refusal {
    ghost from_gives = { λ fault refusal. refusal ≡ refusal_of_fault fault };

    fn from(fault: TableFault) -> Self {
        match fault {
            TableFault::NotApplicable => Refusal::Misfit,
            TableFault::Memory => Refusal::Memory,
        }
    }
}

impl From<AllocError> for Refusal {
    ghost from_gives = { λ _ refusal. refusal ≡ Memory };

    fn from(_: AllocError) -> Self {
        Refusal::Memory
    }
}

impl<T: Drop> From<AllocFailed<T>> for Refusal {
    ghost from_gives = { λ _ refusal. refusal ≡ Memory };

    fn from(_: AllocFailed<T>) -> Self {
        Refusal::Memory
    }
}
