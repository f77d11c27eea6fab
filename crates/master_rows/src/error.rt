//! Why a sheet is not read.
ghost use Rattle.std.specs.Prelude.{◌≡◌, true};
ghost use Rattle.csv.specs.Reading.{error_kind, stops_reader};
ghost use Rattle.master_rows.specs.declared.error.SheetFault.TheVariants as fault;

use desk_base::NoMemory;
use std::alloc::AllocFailed;
use thiserror::Error;

/// The first fault of a sheet. Rows and columns count from 1.
#[derive(Clone, Copy, Debug, PartialEq, Eq, Error)]
pub enum SheetFault {
    /// A field of this row is not UTF-8; row 0 is the header.
    #[error("a field of row {0} is not UTF-8")]
    NotUtf8(u64),
    /// There is no record.
    #[error("there is no header")]
    NoHeader,
    /// This column is empty, has more than 64 bytes or begins with a byte order mark.
    #[error("column {0} is empty, too long or begins with a byte order mark")]
    BadColumn(u64),
    /// This column equals an earlier one.
    #[error("column {0} equals an earlier one")]
    ColumnTwice(u64),
    /// This row has not as many fields as the header.
    #[error("row {0} has not as many fields as the header")]
    Ragged(u64),
    /// In this row, the cell in this column has more than 200 bytes.
    #[error("the cell in row {0} and column {1} has more than 200 bytes")]
    CellLong(u64, u64),
    /// There are more rows than were to be taken: 20,000 at a desk.
    #[error("there are too many rows")]
    TooManyRows,
    /// There are more than 48 columns.
    #[error("there are more than 48 columns")]
    TooManyColumns,
    /// There was no memory. This is no fault of the sheet.
    #[error("there was no memory for a master")]
    NoMemory,
}

impl From<NoMemory> for SheetFault {
    ghost from_gives = { λ _ e. e ≡ fault.NoMemory };

    fn from(_want: NoMemory) -> SheetFault {
        SheetFault::NoMemory
    }
}

impl<T: Drop> From<AllocFailed<T>> for SheetFault {
    ghost from_gives = { λ _ e. e ≡ fault.NoMemory };

    fn from(_refused: AllocFailed<T>) -> SheetFault {
        SheetFault::NoMemory
    }
}

/// Want of memory, by the error that stopped a reader of a sheet in memory.
///
/// An error that stops a reader is one of memory or of the device underneath. `csv` doesn't say that bytes in
/// memory are a device without errors, and they are.
pub(crate) fn stopped(error: csv::Error) -> NoMemory
    requires { stops_reader (error_kind error) ≡ true }
{
    drop(error);
    NoMemory
}
