//! Memory that was refused.

use std::alloc::{AllocError, AllocFailed};

/// Memory that was asked for was refused.
#[derive(Drop, Debug)]
pub struct NoMemory;

impl From<AllocError> for NoMemory {
    fn from(_error: AllocError) -> Self {
        NoMemory
    }
}

impl<T: Drop> From<AllocFailed<T>> for NoMemory {
    fn from(_refused: AllocFailed<T>) -> Self {
        NoMemory
    }
}
