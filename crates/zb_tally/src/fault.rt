ghost use Rattle.std.specs.Prelude.{◌≡◌};
ghost use Rattle.zb_tally.specs.Status.{gen_status, gen_fault_status};

use thiserror::Error;
use zb_outside::Trouble;

/// Why it wasn't written what came of a workload.
#[derive(Clone, Copy, Debug, Drop, Error)]
pub enum GenFault {
    /// The words ask for no workload.
    #[error("the words ask for no workload")]
    Usage,
    /// An entry of its run doesn't fit into the log of its partition.
    #[error("a log of the workload has no room for its next frame within 1073741824 bytes; ask for fewer requests, or for more partitions")]
    LogFull,
    /// The sink refused the summary.
    #[error("the summary could not be written: {0}")]
    Sink(Trouble),
    #[error("there was no memory")]
    Memory,
}

/// The exit status of what came of a workload.
pub fn status(written: Result<(), GenFault>) -> u8
    ensures { result ≡ gen_status written }
{
    match written {
        Ok(()) => 0,
        Err(fault) => fault_status(fault),
    }
}

// The exit status of a fault.
fn fault_status(fault: GenFault) -> u8
    ensures { result ≡ gen_fault_status fault }
{
    match fault {
        GenFault::Usage => 2,
        GenFault::Sink(Trouble::Failed) => 6,
        GenFault::Sink(Trouble::Memory) | GenFault::Memory => 7,
        GenFault::LogFull => 8,
    }
}
