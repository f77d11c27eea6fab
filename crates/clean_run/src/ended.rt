//! How the program ends.
ghost use Rattle.std.specs.Prelude.{◌≡◌};
ghost use Rattle.clean_run.specs.Statuses.{status_code};
ghost use Rattle.clean_run.specs.declared.ended.Status.TheVariants.{NoMemory as NoMemoryStatus};

use desk_base::NoMemory;
use sheet_clean::Summary;
use std::alloc::AllocError;

/// The exit status, with the line that says why where it is not 0 and there was memory for it, and the summary where a
/// header was written.
#[derive(Debug, Drop)]
pub struct Ended {
    pub status: Status,
    pub why: Option<String>,
    pub summary: Option<Summary>,
}

/// The exit statuses (docs/formats.md, *Statuses of `fixdesk_clean`*).
#[derive(Clone, Copy, Debug, PartialEq, Eq)]
pub enum Status {
    /// The sheet was cleaned, or a text shown.
    Done,
    /// The words do not fit, or they name an attribute that the schema does not have.
    Words,
    /// A read of the sheet failed.
    ReadFault,
    /// A write failed.
    WriteFault,
    /// A file can't be read.
    Unreadable,
    /// There was no memory. It may come in place of any other status.
    NoMemory,
    /// A file or the sheet is refused.
    Refused,
}

impl Status {
    /// Its number.
    pub fn code(self) -> u8
        ensures { result ≡ status_code self }
    {
        match self {
            Status::Done => 0,
            Status::Words => 1,
            Status::ReadFault => 2,
            Status::WriteFault => 3,
            Status::Unreadable => 4,
            Status::NoMemory => 5,
            Status::Refused => 7,
        }
    }
}

impl From<AllocError> for Ended {
    ghost from_gives = { λ _ result. result.status ≡ NoMemoryStatus };

    fn from(_want: AllocError) -> Ended {
        Ended::no_memory()
    }
}

impl From<NoMemory> for Ended {
    ghost from_gives = { λ _ result. result.status ≡ NoMemoryStatus };

    fn from(_want: NoMemory) -> Ended {
        Ended::no_memory()
    }
}

impl Ended {
    /// There was no memory.
    pub fn no_memory() -> Ended
        ensures { result.status ≡ Status.NoMemory }
    {
        Ended {
            status: Status::NoMemory,
            why: None,
            summary: None,
        }
    }

    /// For this reason, before anything was written.
    pub fn because(status: Status, why: String) -> Ended
        ensures { result.status ≡ status }
    {
        Ended {
            status,
            why: Some(why),
            summary: None,
        }
    }
}
