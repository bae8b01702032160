use thiserror::Error;

/// Why a call of a stream was refused.
#[derive(Clone, Copy, Debug, PartialEq, Eq, Error)]
pub enum Trouble {
    /// The stream failed, and its count of faults rose.
    #[error("the stream failed")]
    Failed,
    /// There was no memory.
    #[error("there was no memory")]
    Memory,
}
