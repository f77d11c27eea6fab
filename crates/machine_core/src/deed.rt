//! What a write of a clerk does.
ghost use Rattle.std.specs.Prelude.{◌≡◌, IfOk};
ghost use Rattle.machine_core.specs.Own.{puts};

use desk_base::{List, NoMemory};
use desk_words::{Act, BatchRow, RecordRow, SessionRow};
use std::alloc::Global;

/// What an accepted write of a clerk does to the clerk's own rows, and what the clerk's row keeps of it.
#[derive(Debug, Drop)]
pub struct Deed {
    /// Sessions that are put, each at its place, counted from 0. One at the number of sessions stands after the
    /// others.
    pub sessions: List<(u32, SessionRow)>,
    /// A record after the others.
    pub record_row: Option<RecordRow>,
    /// A batch after the others.
    pub batch: Option<BatchRow>,
    /// What the clerk's row says that the last write did.
    pub act: Act,
    /// The place of the row that the act is about, counted from 0.
    pub target: u32,
}

impl Deed {
    /// A deed that puts one session at a place, counted from 0.
    pub fn puts(alloc: Global, place: u32, session: SessionRow, act: Act) -> Result<Deed, NoMemory>
        ensures { IfOk result (λ deed. deed ≡ puts place session act) }
    {
        let mut sessions = List::new(alloc);
        sessions.push((place, session))?;
        Ok(Deed {
            sessions,
            record_row: None,
            batch: None,
            act,
            target: place,
        })
    }
}
