//! Why a file holds no cases.
use desk_base::NoMemory;
use std::alloc::{AllocError, AllocFailed};
use thiserror::Error;

/// Why a file holds no cases.
#[derive(Clone, Copy, Debug, PartialEq, Eq, Error)]
pub enum CaseFault {
    /// It is not UTF-8.
    #[error("the file is not UTF-8")]
    NotUtf8,
    /// The line, counted from 1, has not the form of cases.
    #[error("line {line} is of no case")]
    BadLine { line: u64 },
    /// There was no memory.
    #[error("there was no memory for the cases")]
    NoMemory,
}

impl From<NoMemory> for CaseFault {
    fn from(_want: NoMemory) -> CaseFault {
        CaseFault::NoMemory
    }
}

impl From<AllocError> for CaseFault {
    fn from(_want: AllocError) -> CaseFault {
        CaseFault::NoMemory
    }
}

impl<T: Drop> From<AllocFailed<T>> for CaseFault {
    fn from(_refused: AllocFailed<T>) -> CaseFault {
        CaseFault::NoMemory
    }
}
