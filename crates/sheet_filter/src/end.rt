//! How the cleaning of a sheet ends.
use sheet_clean::{SheetFault, Summary};

/// How the cleaning of a sheet ended. A summary is over the rows that were written, and there is one where a header
/// was.
#[derive(Clone, Copy, Debug, PartialEq, Eq)]
pub enum End {
    /// All rows were written.
    Done(Summary),
    /// The sheet has this fault. The rows before it were written.
    Refused(SheetFault, Option<Summary>),
    /// A read failed. The rows that had ended before were written.
    ReadFault(Option<Summary>),
    /// A write failed. Of what was due a beginning was written: the headers of the three sheets of changes stand before
    /// anything of the clean one.
    WriteFault,
    /// There was no memory. It may come in place of any other end. Nothing was written, or the header and some rows.
    NoMemory,
}
