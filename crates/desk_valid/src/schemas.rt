//! Whether the rows of the schemas are what they have to be.
ghost use Rattle.std.specs.Prelude.{◌≡◌, ◌↔◌, Some, slice_get, IsTrue};
ghost use Rattle.desk_valid.specs.declared.table.Table.TheVariants.{Schemas};
ghost use Rattle.desk_valid.specs.FirstDamaged.{IsFirstDamaged};
ghost use Rattle.desk_valid.specs.ReadTables.{AreRead, published_in, rows_in};
ghost use Rattle.desk_valid.specs.Rows.Schema.{IsSchemaRow};

use crate::read_tables::ReadTables;
use crate::versions::is_version;
use desk_words::TextRow;

/// The first damaged row of the schemas.
pub(crate) fn first_damaged(read: &ReadTables<'_>) -> Option<u64>
    requires { AreRead read.now }
    ensures { IsFirstDamaged (rows_in read.now) Schemas result }
{
    'rows: for (place, row) in read.tables.schemas.as_slice().iter().enumerate() {
        if !is_schema_row(read, place, row) {
            return Some(place as u64);
        }
    }
    None
}

/// Whether the row at this place is the next version of its name, which is that of the schema.
fn is_schema_row(read: &ReadTables<'_>, place: usize, row: &TextRow) -> bool
    requires read { AreRead read.now }
    requires stands { slice_get (published_in read.now).schemas place ≡ Some row.now }
    ensures { IsTrue result ↔ IsSchemaRow (published_in read.now) place row.now }
{
    let Some(schema) = read.schema_at(place) else {
        return false;
    };
    row.name.as_str() == schema.name.as_str()
        && is_version(read.tables.schemas.as_slice(), place, row)
}
