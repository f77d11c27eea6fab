//! The two plain faults.
use std::alloc::{AllocError, AllocFailed};
use thiserror::Error;

/// Memory was wanted and there was none.
#[derive(Clone, Copy, Debug, PartialEq, Eq, Error)]
#[error("there was no memory")]
pub struct NoMemory;

/// A device refused a call. Its count of faults has risen, or stands at its last value.
#[derive(Clone, Copy, Debug, PartialEq, Eq, Error)]
#[error("a device failed")]
pub struct Failed;

impl From<AllocError> for NoMemory {
    fn from(_want: AllocError) -> NoMemory {
        NoMemory
    }
}

/// What was to be stored is dropped.
impl<T: Drop> From<AllocFailed<T>> for NoMemory {
    fn from(_refused: AllocFailed<T>) -> NoMemory {
        NoMemory
    }
}
