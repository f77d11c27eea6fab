//! What holds of tables and changes, whatever they are.
ghost use Rattle.std.specs.Prelude.{◌≡◌};
ghost use Rattle.desk_words.specs.Changes.{FitAll, changed_all};
ghost use Rattle.desk_words.specs.Tables.{AreTables, rows_of, tables_of};

use crate::change::Change;
use crate::tables::Tables;

/// Changes that fit leave tables: a list for each clerk, and none of them too long.
pub fn fitting_changes_leave_tables(tables: &Tables, changes: &[Change])
    requires tables { AreTables (rows_of tables.now) }
    requires fit { FitAll (rows_of tables.now) changes.now }
    ensures { AreTables (changed_all (rows_of tables.now) changes.now) }
{}

/// The tables that are made of rows have these rows.
pub fn tables_have_their_rows(tables: &Tables)
    ensures { rows_of (tables_of (rows_of tables.now)) ≡ rows_of tables.now }
{}
