//! How many cells masters have. A master's body is read for it, so it is counted before anything is changed.
ghost use Rattle.std.specs.Prelude.{◌≡◌, ◌+◌, ◌<◌, ◌^◌, IfOk};
ghost use Rattle.desk_words.specs.Tables.{IsShort};
ghost use Rattle.desk_valid.specs.Tallies.{cells_in, master_cells};
ghost use Rattle.desk_totals.specs.Totals.{new_cells};

use desk_base::NoMemory;
use desk_words::{Change, TextRow};
use master_rows::{Master, SheetFault};
use std::alloc::Global;

/// The cells of the master in a row.
fn cells_in(alloc: Global, row: &TextRow) -> Result<u64, NoMemory>
    ensures { IfOk result (λ cells. cells ≡ cells_in row.now) }
{
    match Master::outline(alloc, row.body.as_slice()) {
        Ok(outline) => Ok(outline.columns.len() as u64 * u64::from(outline.rows)),
        Err(SheetFault::NoMemory) => Err(NoMemory),
        Err(_) => Ok(0),
    }
}

/// The cells of all masters.
pub(crate) fn master_cells(alloc: Global, masters: &[TextRow]) -> Result<u64, NoMemory>
    requires { IsShort masters.now }
    ensures { IfOk result (λ cells. cells ≡ master_cells masters.now) }
{
    let mut cells = 0;
    'masters: for row in masters {
        cells += cells_in(alloc, row)?;
    }
    Ok(cells)
}

/// The cells of all masters once changes are made, where there are so many.
pub(crate) fn cells_with(alloc: Global, cells: u64, changes: &[Change]) -> Result<u64, NoMemory>
    requires { cells + new_cells changes.now < 2 ^ 64 }
    ensures { IfOk result (λ after. after ≡ cells + new_cells changes.now) }
{
    let mut after = cells;
    'changes: for change in changes {
        if let Change::Master(row) = change {
            after += cells_in(alloc, row)?;
        }
    }
    Ok(after)
}
