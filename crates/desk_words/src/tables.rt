//! The nine tables.
ghost use Rattle.std.specs.Prelude.{codes, ◌≡◌, [], ◌∷◌, IfOk};
ghost use Rattle.desk_words.specs.Tables.{lists_of, rows_of, new_clerk, empty_rows};
ghost use Rattle.desk_words.specs.Tables.{room_of, rooms_of, tables_of};

use crate::rows::act::Act;
use crate::rows::batch::BatchRow;
use crate::rows::clerk::{ClerkRow, Digest};
use crate::rows::edition::EditionRow;
use crate::rows::record::RecordRow;
use crate::rows::region::RegionRow;
use crate::rows::rulebook::RulebookRow;
use crate::rows::session::SessionRow;
use crate::rows::text::TextRow;
use desk_base::{Duplicate, NoMemory, Room, Text};
use std::alloc::Global;

/// The nine tables. The steward is row 0 of the clerks. The last three have a room for each row of the clerks:
/// that caller's own sessions, records and batches. `docs/tables.md` explains each table.
#[derive(Debug)]
pub struct Tables {
    pub clerks: Room<ClerkRow>,
    pub schemas: Room<TextRow>,
    pub masters: Room<TextRow>,
    pub rulebooks: Room<RulebookRow>,
    pub editions: Room<EditionRow>,
    pub regions: Room<RegionRow>,
    pub sessions: Room<Room<SessionRow>>,
    pub records: Room<Room<RecordRow>>,
    pub batches: Room<Room<BatchRow>>,
}

/// One call lets it go (`docs/gate.md`).
impl Drop for Tables {
    fn drop(self) {
        let Tables {
            clerks,
            schemas,
            masters,
            rulebooks,
            editions,
            regions,
            sessions,
            records,
            batches,
        } = self;
        drop(clerks);
        drop(schemas);
        drop(masters);
        drop(rulebooks);
        drop(editions);
        drop(regions);
        drop(sessions);
        drop(records);
        drop(batches);
    }
}

impl Tables {
    /// The tables of a new desk: the steward alone.
    pub fn empty(alloc: Global) -> Result<Tables, NoMemory>
        ensures { IfOk result (λ made. rows_of made ≡ empty_rows) }
    {
        let mut clerks = Room::new(alloc);
        clerks.push(steward(alloc)?)?;
        let sessions = empty_list(alloc)?;
        let records = empty_list(alloc)?;
        Ok(Tables {
            clerks,
            schemas: Room::new(alloc),
            masters: Room::new(alloc),
            rulebooks: Room::new(alloc),
            editions: Room::new(alloc),
            regions: Room::new(alloc),
            sessions,
            records,
            batches: empty_list(alloc)?,
        })
    }

    /// The same rows, with no places reserved after them.
    pub fn copy_rows(&self, alloc: Global) -> Result<Tables, NoMemory>
        ensures { IfOk result (λ made. made ≡ tables_of (rows_of self.now)) }
    {
        let clerks = copy_room(alloc, self.clerks.as_slice())?;
        let schemas = copy_room(alloc, self.schemas.as_slice())?;
        let masters = copy_room(alloc, self.masters.as_slice())?;
        let rulebooks = copy_room(alloc, self.rulebooks.as_slice())?;
        let editions = copy_room(alloc, self.editions.as_slice())?;
        let regions = copy_room(alloc, self.regions.as_slice())?;
        let sessions = copy_rooms(alloc, &self.sessions)?;
        let records = copy_rooms(alloc, &self.records)?;
        Ok(Tables {
            clerks,
            schemas,
            masters,
            rulebooks,
            editions,
            regions,
            sessions,
            records,
            batches: copy_rooms(alloc, &self.batches)?,
        })
    }
}

/// A room of copies of the items.
fn copy_room<T: Duplicate + Drop>(alloc: Global, items: &[T]) -> Result<Room<T>, NoMemory>
    ensures { IfOk result (λ made. made ≡ room_of items.now) }
{
    let mut made = Room::new(alloc);
    'items: for item in items {
        made.push(item.copy()?)?;
    }
    Ok(made)
}

/// A room of rooms of copies of the items.
fn copy_rooms<T: Duplicate + Drop>(
    alloc: Global,
    rooms: &Room<Room<T>>,
) -> Result<Room<Room<T>>, NoMemory>
    ensures { IfOk result (λ made. made ≡ rooms_of (lists_of rooms.now)) }
{
    let mut made = Room::new(alloc);
    'rooms: for room in rooms.as_slice() {
        made.push(copy_room(alloc, room.as_slice())?)?;
    }
    Ok(made)
}

/// The row of the steward of a new desk.
fn steward(alloc: Global) -> Result<ClerkRow, NoMemory>
    ensures { IfOk result (λ row. row ≡ new_clerk (codes "steward")) }
{
    Ok(ClerkRow::new(Text::of(alloc, "steward")?))
}

/// The lists of one caller, of whom nothing is kept yet.
fn empty_list<T: Drop>(alloc: Global) -> Result<Room<Room<T>>, NoMemory>
    ensures { IfOk result (λ made. lists_of made ≡ [] ∷ []) }
{
    let mut lists = Room::new(alloc);
    lists.push(Room::new(alloc))?;
    Ok(lists)
}

impl ClerkRow {
    /// A caller of this name, of whom no request was accepted yet.
    pub fn new(name: Text) -> ClerkRow
        ensures { result ≡ new_clerk name }
    {
        ClerkRow {
            name,
            last: 0,
            digest: Digest { bytes: [0; 32] },
            act: Act::Nothing,
            target: 0,
        }
    }
}
