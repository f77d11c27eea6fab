//! Row: a row of a version of a master.
ghost use Rattle.std.specs.Prelude.{◌≡◌, ◌-◌, ◌<◌, IfOk, length, zip, slice_index_or, []};
ghost use Rattle.desk_words.specs.Tables.{published_of, rows_of};
ghost use Rattle.desk_valid.specs.Valid.{AreValid};
ghost use Rattle.master_rows.specs.Master.{IsMaster};
ghost use Rattle.machine_core.specs.DeskLook.Row.{row_shown};
ghost use Rattle.machine_core.specs.Outcomes.{Finds};

use desk_base::{Duplicate, List, NoMemory, Str, Text};
use desk_valid::master_of;
use desk_words::{Kind, MasterRowSheet, Refusal, Tables};
use machine_core::{Stop, named};
use master_rows::Master;
use std::alloc::Global;

/// The row of this number, counted from 1, of the master of this name and version. The master's sheet is read.
pub fn row_shown(
    alloc: Global,
    tables: &Tables,
    master: &Str,
    version: u32,
    number: u32,
) -> Result<MasterRowSheet, Stop>
    requires valid { AreValid (rows_of tables.now) }
    ensures row { Finds result (row_shown (published_of (rows_of tables.now)) master.now version number) }
{
    let place = named(tables.masters.as_slice(), master, version, Kind::Master)?;
    let (name, sheet) = master_of(alloc, tables, place)?;
    if number == 0 || number > sheet.grid.rows() {
        return Err(Stop::Refused(Refusal::NoSuch(Kind::Row)));
    }
    let cells = cells_of(alloc, &sheet, number - 1)?;
    Ok(MasterRowSheet {
        master: name,
        version,
        row: number,
        cells,
    })
}

/// The cells of a row, counted from 0, each with its column.
fn cells_of(alloc: Global, sheet: &Master, row: u32) -> Result<List<(Text, Text)>, NoMemory>
    requires sound { IsMaster sheet.now }
    requires row { row < length sheet.now.grid.rows }
    ensures { IfOk result (λ cells. cells ≡ zip sheet.now.columns (slice_index_or sheet.now.grid.rows row [])) }
{
    let mut cells = List::new(alloc);
    'columns: for (column, name) in sheet.columns.as_slice().iter().enumerate() {
        cells.push((
            name.copy()?,
            Text::of(alloc, sheet.grid.cell(row, column as u16))?,
        ))?;
    }
    Ok(cells)
}
