ghost use Rattle.std.specs.Prelude.{◌≡◌};
ghost use Rattle.zb_model.specs.declared.stop.Stop.TheVariants as stops;
ghost use Rattle.zb_model.specs.declared.stop.TableFault.TheVariants as faults;

use std::alloc::{AllocError, AllocFailed};
use thiserror::Error;
use zb_base::Key;
use zb_process::Model;

/// Why a partition goes on no longer.
#[derive(Clone, Copy, Debug, PartialEq, Eq, Error)]
pub enum Stop {
    #[error("there was no memory")]
    Memory,
    #[error("the disk failed")]
    DiskFault,
    /// The log of this length in bytes has no room within the limit for a frame of this many.
    #[error("the log has {length} bytes of {limit}, and the next frame has {frame}")]
    LogFull { length: u64, frame: u64, limit: u64 },
}

impl From<AllocError> for Stop {
    ghost from_gives = { λ _ stop. stop ≡ stops.Memory };

    fn from(_: AllocError) -> Self {
        Stop::Memory
    }
}

/// Why an event was not applied to a table.
#[derive(Clone, Copy, Debug, PartialEq, Eq, Error)]
pub enum TableFault {
    /// The event does not fit what the table has.
    #[error("the event doesn't fit what the table has")]
    NotApplicable,
    #[error("there was no memory")]
    Memory,
}

impl From<AllocError> for TableFault {
    ghost from_gives = { λ _ fault. fault ≡ faults.Memory };

    fn from(_: AllocError) -> Self {
        TableFault::Memory
    }
}

impl<T: Drop> From<AllocFailed<T>> for TableFault {
    ghost from_gives = { λ _ fault. fault ≡ faults.Memory };

    fn from(_: AllocFailed<T>) -> Self {
        TableFault::Memory
    }
}

/// What the events so far say of an event beyond its fields. A part that does not apply is None or empty.
#[derive(Clone, Copy)]
pub struct Note<'a> {
    /// The model of the definition that the event names, or that its cell has.
    pub model: Option<&'a Model>,
    /// The cells that are there before the event and not after it, ascending.
    pub gone: &'a [Key],
    /// The cells of the instance that the event moves to another definition, ascending.
    pub cells: &'a [Key],
    /// The id of the process that the event's message starts.
    pub process: &'a str,
}
