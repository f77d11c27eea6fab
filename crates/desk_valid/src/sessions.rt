//! Whether the rows of the sessions are what they have to be.
ghost use Rattle.std.specs.Prelude.{◌≡◌, ◌↔◌, ◌<◌, ◌^◌, length, IfSome, IsTrue};
ghost use Rattle.desk_words.specs.Tables.{AreTables, list_at};
ghost use Rattle.desk_valid.specs.declared.table.Table.TheVariants.{Sessions};
ghost use Rattle.desk_valid.specs.FirstDamaged.{IsFirstBad, IsFirstDamaged};
ghost use Rattle.desk_valid.specs.Readings.{width_at};
ghost use Rattle.desk_valid.specs.ReadTables.{AreRead, published_in, rows_in};
ghost use Rattle.desk_valid.specs.Rows.Session.{IsSessionRow};
ghost use Rattle.desk_valid.specs.Valid.{IsOwnSession};

use crate::lists::own_list;
use crate::read_tables::ReadTables;
use desk_words::SessionRow;

/// The first damaged row of the sessions.
pub(crate) fn first_damaged(read: &ReadTables<'_>) -> Option<u64>
    requires read { AreRead read.now }
    requires tables { AreTables (rows_in read.now) }
    ensures { IsFirstDamaged (rows_in read.now) Sessions result }
{
    let mut before = 0;
    'clerks: for clerk in 0..read.tables.sessions.len() {
        if let Some(own) = first_of_clerk(read, clerk) {
            return Some(before + own);
        }
        before += own_list(&read.tables.sessions, clerk).len() as u64;
    }
    None
}

/// The first damaged session of a clerk.
fn first_of_clerk(read: &ReadTables<'_>, clerk: usize) -> Option<u64>
    requires { AreRead read.now }
    ensures { IsFirstBad (list_at (rows_in read.now).sessions clerk)
        (IsOwnSession (rows_in read.now) clerk) result }
{
    'rows: for (place, row) in own_list(&read.tables.sessions, clerk).iter().enumerate() {
        if !is_session_row(read, clerk, row) {
            return Some(place as u64);
        }
    }
    None
}

fn is_session_row(read: &ReadTables<'_>, clerk: usize, row: &SessionRow) -> bool
    requires { AreRead read.now }
    ensures { IsTrue result ↔ IsSessionRow (published_in read.now) (list_at (rows_in read.now).batches clerk) row.now }
{
    (row.edition as usize) < read.tables.editions.len()
        && is_whole(read, row)
        && row.batch as usize <= own_list(&read.tables.batches, clerk).len()
}

/// Whether there is a text and a flag for each attribute, where the rules of the edition read.
fn is_whole(read: &ReadTables<'_>, row: &SessionRow) -> bool
    requires { AreRead read.now }
    ensures { IsTrue result
        ↔ IfSome (width_at (published_in read.now) row.now.edition) (λ width. length row.now.typed ≡ width)
        × IfSome (width_at (published_in read.now) row.now.edition) (λ width. length row.now.confirmed ≡ width) }
{
    match read.width_at(row.edition as usize) {
        Some(width) => row.typed.len() == width && row.confirmed.len() == width,
        None => true,
    }
}
