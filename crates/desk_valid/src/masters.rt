//! Whether the rows of the masters are what they have to be.
ghost use Rattle.std.specs.Prelude.{◌≡◌, ◌↔◌, Some, slice_get, IsSome, IsTrue};
ghost use Rattle.desk_valid.specs.declared.table.Table.TheVariants.{Masters};
ghost use Rattle.desk_valid.specs.FirstDamaged.{IsFirstDamaged};
ghost use Rattle.desk_valid.specs.Readings.{master_at};
ghost use Rattle.desk_valid.specs.ReadTables.{AreRead, published_in, rows_in};
ghost use Rattle.desk_valid.specs.Rows.Master.{IsMasterRow};

use crate::read_tables::ReadTables;
use crate::versions::is_version;
use desk_words::TextRow;

/// The first damaged row of the masters.
pub(crate) fn first_damaged(read: &ReadTables<'_>) -> Option<u64>
    requires { AreRead read.now }
    ensures { IsFirstDamaged (rows_in read.now) Masters result }
{
    'rows: for (place, row) in read.tables.masters.as_slice().iter().enumerate() {
        if !is_master_row(read, place, row) {
            return Some(place as u64);
        }
    }
    None
}

/// Whether the row at this place is the next version of its name, and its body reads.
fn is_master_row(read: &ReadTables<'_>, place: usize, row: &TextRow) -> bool
    requires read { AreRead read.now }
    requires stands { slice_get (published_in read.now).masters place ≡ Some row.now }
    ensures { IsTrue result ↔ IsMasterRow (published_in read.now) place row.now }
{
    is_version(read.tables.masters.as_slice(), place, row) && reads(read, place)
}

/// Whether the body of the row at this place reads.
fn reads(read: &ReadTables<'_>, place: usize) -> bool
    requires { AreRead read.now }
    ensures { IsTrue result ↔ IsSome (master_at (published_in read.now) place) }
{
    read.header_at(place).is_some()
}
