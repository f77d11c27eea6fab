//! What a clerk writes.
use desk_base::{List, Str};

/// Which fixes a commit accepts.
#[derive(Clone, Copy, Debug, PartialEq, Eq)]
pub enum Accept {
    /// Only one in which every attribute is covered.
    Certain,
    /// One with uncovered attributes too.
    Partial,
}

/// What a clerk writes. A session is named by its number among the clerk's, counted from 1; a cell is the word of
/// an attribute with its text.
#[derive(Debug)]
pub enum ClerkWork {
    /// A session on the newest version of an edition.
    Enter {
        edition: Str,
        cells: List<(Str, Str)>,
        confirmed: List<Str>,
    },
    /// The cells are typed and confirmed.
    Confirm {
        session: u32,
        cells: List<(Str, Str)>,
    },
    /// The attributes are confirmed no longer.
    Withdraw {
        session: u32,
        names: List<Str>,
    },
    /// The record at the end of the first run is kept.
    Commit {
        session: u32,
        accept: Accept,
    },
    Abandon {
        session: u32,
    },
    /// A session for each row of a sheet.
    Batch {
        edition: Str,
        body: List<u8>,
    },
    /// The session goes on over a newer version of its edition.
    Carry {
        session: u32,
        version: u32,
    },
}

/// One call lets it go (`docs/gate.md`).
impl Drop for ClerkWork {
    fn drop(self) {
        match self {
            ClerkWork::Enter {
                edition,
                cells,
                confirmed,
            } => {
                drop(edition);
                drop(cells);
                drop(confirmed);
            }
            ClerkWork::Confirm { session: _, cells } => drop(cells),
            ClerkWork::Withdraw { session: _, names } => drop(names),
            ClerkWork::Commit {
                session: _,
                accept: _,
            }
            | ClerkWork::Abandon { session: _ }
            | ClerkWork::Carry {
                session: _,
                version: _,
            } => {}
            ClerkWork::Batch { edition, body } => {
                drop(edition);
                drop(body);
            }
        }
    }
}
