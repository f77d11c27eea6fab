//! How a dump was restored, or why not.
ghost use Rattle.std.specs.Prelude.{◌≡◌};
ghost use Rattle.restore_run.specs.Ends.{end_code};

/// What became of a dump.
#[derive(Clone, Copy, Debug, PartialEq, Eq)]
pub enum RestoreEnd {
    /// The desk whose dump it is was made.
    Done,
    /// There are words, and the usage line was written.
    NoCommand,
    /// The source could not be read.
    ReadFault,
    /// The output could not be written to.
    WriteFault,
    /// The keeper failed.
    Unavailable,
    /// There was no memory.
    NoMemory,
    /// A row of the dump is damaged, and the line that names the first one was written.
    Damaged,
    /// It is no dump: it differs in this line, counted from 1, from the dump of what was read of it.
    Refused(u64),
    /// The keeper has a desk already.
    Standing,
}

impl RestoreEnd {
    /// The end as the program's exit status (docs/formats.md, *Statuses of `fixdesk_restore`*).
    pub fn code(self) -> u8
        ensures { result ≡ end_code self }
    {
        match self {
            RestoreEnd::Done => 0,
            RestoreEnd::NoCommand => 1,
            RestoreEnd::ReadFault => 2,
            RestoreEnd::WriteFault => 3,
            RestoreEnd::Unavailable => 4,
            RestoreEnd::NoMemory => 5,
            RestoreEnd::Damaged => 6,
            RestoreEnd::Refused(_) => 7,
            RestoreEnd::Standing => 10,
        }
    }
}
