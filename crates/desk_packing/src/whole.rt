//! The rows of a new desk, and those that make the old version the new one.
ghost use Rattle.std.specs.Prelude.{◌≡◌, codes, false, IfOk, OnOk, IsErrOf, map};
ghost use Rattle.std.specs.List.{AllByRecursion};
ghost use Rattle.desk_words.specs.Tables.{AreTables, empty_rows, new_clerk, rows_of};
ghost use Rattle.desk_packing.specs.declared.kinds.TheConstants.{CLERKS};
ghost use Rattle.desk_packing.specs.Lines.{line_of};
ghost use Rattle.desk_packing.specs.RowFormats.{clerk, edition};
ghost use Rattle.desk_packing.specs.Shapes.{migration_lines};
ghost use Rattle.desk_packing.specs.Stands.{lines_of, row_line, version_line};

use crate::error::{FieldFault, PackFault};
use crate::kinds::{CLERKS, EDITIONS, VERSION};
use crate::line::PackedRow;
use crate::row::pack_row;
use desk_base::{List, NoMemory, Text};
use desk_words::{ClerkRow, Tables};
use std::alloc::Global;

/// The row that says that the others are of the new version.
fn version_row(alloc: Global) -> Result<PackedRow, NoMemory>
    ensures { IfOk result (λ row. line_of row ≡ version_line false) }
{
    let mut body = List::new(alloc);
    body.push(2)?;
    Ok(PackedRow {
        kind: VERSION,
        owner: 0,
        place: 0,
        body,
    })
}

/// The row of the steward of a new desk.
fn steward_row(alloc: Global) -> Result<PackedRow, NoMemory>
    ensures { IfOk result (λ row. line_of row ≡ row_line clerk CLERKS 0 0 (new_clerk (codes "steward"))) }
{
    let steward = ClerkRow::new(Text::of(alloc, "steward")?);
    match pack_row(alloc, CLERKS, 0, 0, &steward) {
        Ok(row) => Ok(row),
        Err(FieldFault::NoMemory) => Err(NoMemory),
        Err(FieldFault::TooLong) => unreachable!(),
    }
}

/// The rows of the tables of a new desk.
pub fn pack_empty(alloc: Global) -> Result<List<PackedRow>, NoMemory>
    ensures { IfOk result (λ rows. map line_of rows ≡ lines_of empty_rows) }
{
    let mut rows = List::new(alloc);
    rows.push(version_row(alloc)?)?;
    rows.push(steward_row(alloc)?)?;
    Ok(rows)
}

/// The rows that make tables of the old version those of the new one: the row of the version, and each edition anew.
pub fn migrated(alloc: Global, tables: &Tables) -> Result<List<PackedRow>, PackFault>
    requires { AreTables (rows_of tables.now) }
    ensures rows { IfOk result (λ rows. map line_of rows ≡ migration_lines (rows_of tables.now)) }
    ensures fit { OnOk result (AllByRecursion edition.Fits tables.now.editions.items) }
    ensures misfit { IsErrOf result PackFault.Misfit → ⊥ }
    ensures too_long { IsErrOf result PackFault.TooLong
        → AllByRecursion edition.Fits tables.now.editions.items → ⊥ }
{
    let mut rows = List::new(alloc);
    rows.push(version_row(alloc)?)?;
    'editions: for (place, row) in tables.editions.as_slice().iter().enumerate() {
        rows.push(pack_row(alloc, EDITIONS, 0, place as u32, row)?)?;
    }
    Ok(rows)
}
