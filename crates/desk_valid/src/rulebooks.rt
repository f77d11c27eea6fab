//! Whether the rows of the rulebooks are what they have to be.
ghost use Rattle.std.specs.Prelude.{◌≡◌, ◌↔◌, Some, slice_get, IfSome, IsSome, IsTrue};
ghost use Rattle.desk_valid.specs.declared.table.Table.TheVariants.{Rulebooks};
ghost use Rattle.desk_valid.specs.FirstDamaged.{IsFirstDamaged};
ghost use Rattle.desk_valid.specs.Readings.{rules_over, schema_at};
ghost use Rattle.desk_valid.specs.ReadTables.{AreRead, published_in, rows_in};
ghost use Rattle.desk_valid.specs.Rows.Rulebook.{IsRulebookRow};

use crate::read_tables::ReadTables;
use crate::versions::is_version;
use desk_words::RulebookRow;

/// The first damaged row of the rulebooks.
pub(crate) fn first_damaged(read: &ReadTables<'_>) -> Option<u64>
    requires { AreRead read.now }
    ensures { IsFirstDamaged (rows_in read.now) Rulebooks result }
{
    'rows: for (place, row) in read.tables.rulebooks.as_slice().iter().enumerate() {
        if !is_rulebook_row(read, place, row) {
            return Some(place as u64);
        }
    }
    None
}

/// Whether the row at this place is the next version of its name, whose body reads over the schema that it
/// names.
fn is_rulebook_row(read: &ReadTables<'_>, place: usize, row: &RulebookRow) -> bool
    requires read { AreRead read.now }
    requires stands { slice_get (published_in read.now).rulebooks place ≡ Some row.now }
    ensures { IsTrue result ↔ IsRulebookRow (published_in read.now) place row.now }
{
    is_version(read.tables.rulebooks.as_slice(), place, row)
        && (row.schema as usize) < read.tables.schemas.len()
        && reads(read, place, row)
}

/// Whether the body reads, where the schema does.
fn reads(read: &ReadTables<'_>, place: usize, row: &RulebookRow) -> bool
    requires read { AreRead read.now }
    requires stands { slice_get (published_in read.now).rulebooks place ≡ Some row.now }
    ensures { IsTrue result
        ↔ IfSome (schema_at (published_in read.now) row.now.schema)
        (λ schema. IsSome (rules_over row.now.body schema)) }
{
    read.schema_at(row.schema as usize).is_none() || read.rules_at(place).is_some()
}
