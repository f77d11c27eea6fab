//! A change of the tables.
use crate::rows::batch::BatchRow;
use crate::rows::clerk::ClerkRow;
use crate::rows::edition::EditionRow;
use crate::rows::record::RecordRow;
use crate::rows::region::RegionRow;
use crate::rows::rulebook::RulebookRow;
use crate::rows::session::SessionRow;
use crate::rows::text::TextRow;
use desk_base::{Duplicate, NoMemory};

/// A row that is put into a table. `specs/Changes.antt` says what each change does, and which changes fit.
#[derive(Debug, Drop)]
pub enum Change {
    /// A caller at a place, or after the others where the place is their number; a new one has empty lists of
    /// sessions, records and batches.
    Clerk(u32, ClerkRow),
    /// After the other schemas.
    Schema(TextRow),
    /// After the other masters.
    Master(TextRow),
    /// After the other rulebooks.
    Rulebook(RulebookRow),
    /// After the other editions.
    Edition(EditionRow),
    /// After the other regions.
    Region(RegionRow),
    /// A session of the clerk whose place is the first number: at the place that is the second number, or after that
    /// clerk's others.
    Session(u32, u32, SessionRow),
    /// After the other records of the clerk at this place.
    Record(u32, RecordRow),
    /// After the other batches of the clerk at this place.
    Batch(u32, BatchRow),
}

impl Duplicate for Change {
    fn copy(&self) -> Result<Change, NoMemory> {
        match self {
            Change::Clerk(place, row) => Ok(Change::Clerk(*place, row.copy()?)),
            Change::Schema(row) => Ok(Change::Schema(row.copy()?)),
            Change::Master(row) => Ok(Change::Master(row.copy()?)),
            Change::Rulebook(row) => Ok(Change::Rulebook(row.copy()?)),
            Change::Edition(row) => Ok(Change::Edition(row.copy()?)),
            Change::Region(row) => Ok(Change::Region(row.copy()?)),
            Change::Session(clerk, place, row) => {
                Ok(Change::Session(*clerk, *place, row.copy()?))
            }
            Change::Record(clerk, row) => Ok(Change::Record(*clerk, row.copy()?)),
            Change::Batch(clerk, row) => Ok(Change::Batch(*clerk, *row)),
        }
    }
}
