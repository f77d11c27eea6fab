//! Why a sheet is refused.
use thiserror::Error;

/// The first fault of a sheet. Rows and columns count from 1, attributes from 0.
#[derive(Clone, Copy, Debug, PartialEq, Eq, Error)]
pub enum SheetFault {
    /// There is no record.
    #[error("there is no header")]
    NoHeader,
    /// A field of this row is not UTF-8; row 0 is the header.
    #[error("a field of row {0} is not UTF-8")]
    NotUtf8(u64),
    /// This column begins with a byte order mark.
    #[error("column {0} begins with a byte order mark")]
    MarkedColumn(u64),
    /// This attribute has two columns.
    #[error("attribute {0} has two columns")]
    AttributeTwice(u64),
    /// This attribute is known, and has no column.
    #[error("attribute {0} is known, and has no column")]
    NoColumn(u64),
    /// A column has the name that the column of verdicts is to have.
    #[error("a column has the name of the column of verdicts")]
    VerdictTaken,
    /// This row has so many fields, and the header has so many others.
    #[error("row {0} has {1} fields, and the header has {2}")]
    Ragged(u64, u64, u64),
    /// In this row, the cell of this attribute, which is known, has more than 200 bytes.
    #[error("in row {0}, the cell of attribute {1} has more than 200 bytes")]
    CellLong(u64, u64),
}
