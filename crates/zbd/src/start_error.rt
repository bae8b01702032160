use std::alloc::{AllocError, Global};
use std::io;
use thiserror::Error;

/// Why the server could not start.
#[derive(Debug, Drop, Error)]
pub enum StartError {
    /// A call of the system failed.
    #[error(transparent)]
    System(#[from] io::Error),
    /// A call of the system failed for this path.
    #[error("{path}: {error}")]
    Path { path: String, error: io::Error },
    /// What stands at this path is no regular file.
    #[error("{path} is no regular file")]
    NotRegular { path: String },
    /// Another server has what stands at this path.
    #[error("{path} is in use")]
    InUse { path: String },
    #[error("there was no memory")]
    Memory(#[from(alloc)] AllocError),
}

impl StartError {
    /// An error of the system for this path.
    pub fn at(alloc: Global, path: &str, error: io::Error) -> StartError {
        match String::from_str(alloc, path) {
            Ok(path) => StartError::Path { path, error },
            Err(refused) => StartError::from(refused),
        }
    }
}
