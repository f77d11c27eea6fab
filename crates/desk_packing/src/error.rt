//! Why rows are not packed, and why they are not read back.
ghost use Rattle.std.specs.Prelude.{◌≡◌};
ghost use Rattle.desk_packing.specs.declared.error.FieldFault.TheVariants as field;
ghost use Rattle.desk_packing.specs.declared.error.PackFault.TheVariants as pack;
ghost use Rattle.desk_packing.specs.declared.error.UnpackFault.TheVariants as unpack;
ghost use Rattle.desk_packing.specs.Faults.{fault_of};

use desk_base::NoMemory;
use std::alloc::{AllocError, AllocFailed};
use thiserror::Error;

/// Why rows of changes are not packed.
#[derive(Clone, Copy, Debug, PartialEq, Eq, Error)]
pub enum PackFault {
    /// A change does not fit lists of the lengths that it meets.
    #[error("a change does not fit the lists")]
    Misfit,
    /// A list of a row has more than 4,294,967,295 items.
    #[error("a list has more items than a packed row can count")]
    TooLong,
    /// There was no memory for the packed rows.
    #[error("there was no memory for the packed rows")]
    NoMemory,
}

/// Why a value is not packed.
#[derive(Clone, Copy, Debug, PartialEq, Eq, Error)]
pub enum FieldFault {
    /// A list in it has more than 4,294,967,295 items.
    #[error("a list has more items than a packed row can count")]
    TooLong,
    /// There was no memory for its bytes.
    #[error("there was no memory for the packed value")]
    NoMemory,
}

/// Why rows of the SQL table are not read back as tables.
#[derive(Clone, Copy, Debug, PartialEq, Eq, Error)]
pub enum UnpackFault {
    /// The rows stand for no tables.
    #[error("the rows stand for no tables")]
    Damaged,
    /// There was no memory for the tables.
    #[error("there was no memory for the tables")]
    NoMemory,
}

impl From<NoMemory> for PackFault {
    ghost from_gives = { λ _ result. result ≡ pack.NoMemory };

    fn from(_want: NoMemory) -> PackFault {
        PackFault::NoMemory
    }
}

impl From<FieldFault> for PackFault {
    ghost from_gives = { λ fault result. result ≡ fault_of fault };

    fn from(fault: FieldFault) -> PackFault {
        match fault {
            FieldFault::TooLong => PackFault::TooLong,
            FieldFault::NoMemory => PackFault::NoMemory,
        }
    }
}

impl From<AllocError> for FieldFault {
    ghost from_gives = { λ _ result. result ≡ field.NoMemory };

    fn from(_want: AllocError) -> FieldFault {
        FieldFault::NoMemory
    }
}

/// What was to be stored is dropped.
impl<T: Drop> From<AllocFailed<T>> for FieldFault {
    ghost from_gives = { λ _ result. result ≡ field.NoMemory };

    fn from(_refused: AllocFailed<T>) -> FieldFault {
        FieldFault::NoMemory
    }
}

impl From<NoMemory> for UnpackFault {
    ghost from_gives = { λ _ result. result ≡ unpack.NoMemory };

    fn from(_want: NoMemory) -> UnpackFault {
        UnpackFault::NoMemory
    }
}

impl From<AllocError> for UnpackFault {
    ghost from_gives = { λ _ result. result ≡ unpack.NoMemory };

    fn from(_want: AllocError) -> UnpackFault {
        UnpackFault::NoMemory
    }
}
