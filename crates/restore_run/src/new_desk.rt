//! Which tables are those of a new desk.
ghost use Rattle.std.specs.Prelude.{codes, ◌≡◌, ◌↔◌, [], ◌∷◌, IsTrue};
ghost use Rattle.desk_words.specs.Tables.{empty_rows, lists_of, new_clerk, published_of, rows_of};

use desk_base::Room;
use desk_words::{Act, ClerkRow, Tables};

/// Whether the tables are those of a new desk.
pub fn is_new_desk(tables: &Tables) -> bool
    ensures { IsTrue result ↔ (rows_of tables.now ≡ empty_rows) }
{
    has_no_publication(tables)
        && is_new_steward(tables.clerks.as_slice())
        && is_one_empty(&tables.sessions)
        && is_one_empty(&tables.records)
        && is_one_empty(&tables.batches)
}

/// Whether nothing was published.
fn has_no_publication(tables: &Tables) -> bool
    ensures { IsTrue result ↔ (published_of (rows_of tables.now) ≡ published_of empty_rows) }
{
    tables.schemas.len() == 0
        && tables.masters.len() == 0
        && tables.rulebooks.len() == 0
        && tables.editions.len() == 0
        && tables.regions.len() == 0
}

/// Whether the one caller is the steward, of whom no request was accepted yet.
fn is_new_steward(clerks: &[ClerkRow]) -> bool
    ensures { IsTrue result ↔ (clerks.now ≡ new_clerk (codes "steward") ∷ []) }
{
    match clerks {
        [row] => is_new(row),
        _ => false,
    }
}

/// Whether the row is the one that the steward has at first.
fn is_new(row: &ClerkRow) -> bool
    ensures { IsTrue result ↔ (row.now ≡ new_clerk (codes "steward")) }
{
    row.name.as_str() == "steward"
        && row.last == 0
        && row.digest.bytes == [0; 32]
        && row.act == Act::Nothing
        && row.target == 0
}

/// Whether there is one list, with nothing in it.
fn is_one_empty<T>(lists: &Room<Room<T>>) -> bool
    ensures { IsTrue result ↔ (lists_of lists.now ≡ [] ∷ []) }
{
    match lists.as_slice() {
        [list] => list.len() == 0,
        _ => false,
    }
}
