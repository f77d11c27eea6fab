//! How a call of `run` ends.
ghost use Rattle.std.specs.Prelude.{◌≡◌};
ghost use Rattle.once_run.specs.Status.{status_code};

/// What became of the words.
#[derive(Clone, Copy, Debug, PartialEq, Eq)]
pub enum Status {
    /// The command did its work.
    Done,
    /// The words are no command, and the usage line was written.
    NoCommand,
    /// The link could not be read.
    ReadFault,
    /// The link could not be written to.
    WriteFault,
    /// The keeper failed before anything was read or written.
    Unavailable,
    /// There was no memory.
    NoMemory,
    /// The keeper's tables are damaged, and the line that names the first damaged row was written.
    Damaged,
    /// The input was refused, or ended otherwise than after a whole request.
    Refused,
    /// As many requests were answered as may be.
    Limit,
}

impl Status {
    /// The status as the program's exit status (docs/formats.md, *Statuses of `fixdesk`*).
    pub fn code(self) -> u8
        ensures { result ≡ status_code self }
    {
        match self {
            Status::Done => 0,
            Status::NoCommand => 1,
            Status::ReadFault => 2,
            Status::WriteFault => 3,
            Status::Unavailable => 4,
            Status::NoMemory => 5,
            Status::Damaged => 6,
            Status::Refused => 7,
            Status::Limit => 8,
        }
    }
}
