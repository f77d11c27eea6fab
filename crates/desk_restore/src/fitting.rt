//! Which changes fit tables.
ghost use Rattle.std.specs.Prelude.{◌↔◌, ◌<◌, ◌≤◌, ◌+◌, IsTrue, length, unwrap_or};
ghost use Rattle.desk_words.specs.Changes.{Fits};
ghost use Rattle.desk_words.specs.Tables.{AreTables, list_at, lists_of, row_limit, rows_of};

use desk_base::Room;
use desk_words::{Change, Tables};

/// A list of a table has fewer rows than this.
const ROW_LIMIT: usize = 1 << 31;

/// Whether the change fits the tables.
pub fn fits(tables: &Tables, change: &Change) -> bool
    requires { AreTables (rows_of tables.now) }
    ensures { IsTrue result ↔ Fits (rows_of tables.now) change.now }
{
    match change {
        Change::Clerk(place, _) => fits_at(*place as usize, tables.clerks.len()),
        Change::Schema(_) => fits_after(tables.schemas.len()),
        Change::Master(_) => fits_after(tables.masters.len()),
        Change::Rulebook(_) => fits_after(tables.rulebooks.len()),
        Change::Edition(_) => fits_after(tables.editions.len()),
        Change::Region(_) => fits_after(tables.regions.len()),
        Change::Session(clerk, place, _) => {
            fits_own(&tables.sessions, *clerk as usize, Some(*place as usize))
        }
        Change::Record(clerk, _) => fits_own(&tables.records, *clerk as usize, None),
        Change::Batch(clerk, _) => fits_own(&tables.batches, *clerk as usize, None),
    }
}

/// Whether a row fits at a place of a list of so many rows.
fn fits_at(place: usize, count: usize) -> bool
    ensures { IsTrue result ↔ ((place ≤ count) × (place + 1 < row_limit)) }
{
    place <= count && place < ROW_LIMIT - 1
}

/// Whether a row fits after so many rows.
fn fits_after(count: usize) -> bool
    ensures { IsTrue result ↔ ((count ≤ count) × (count + 1 < row_limit)) }
{
    fits_at(count, count)
}

/// Whether a row fits in the list of a clerk: at this place, or else after the others.
fn fits_own<T>(lists: &Room<Room<T>>, clerk: usize, place: Option<usize>) -> bool
    ensures { IsTrue result ↔ ((clerk < length (lists_of lists.now))
        × ((unwrap_or place (length (list_at (lists_of lists.now) clerk)) ≤ length (list_at (lists_of lists.now) clerk))
        × (unwrap_or place (length (list_at (lists_of lists.now) clerk)) + 1 < row_limit))) }
{
    match lists.as_slice().get(clerk) {
        Some(list) => fits_at(place.unwrap_or(list.len()), list.len()),
        None => false,
    }
}
