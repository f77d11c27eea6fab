//! AddMaster: the next version of a master's name.
ghost use Rattle.std.specs.Prelude.{◌≡◌, ◌<◌, ◌^◌, IfOk, length};
ghost use Rattle.desk_valid.specs.Tallies.{master_cells};
ghost use Rattle.machine_core.specs.Outcomes.{Finds};
ghost use Rattle.machine_core.specs.Steward.AddMaster.{cells_of, master_row};
ghost use Rattle.machine_core.specs.Versions.{AreVersions};

use crate::faults::sheet_stop;
use crate::finding::next_version;
use crate::limits::within;
use crate::naming::{name_text, proper_name};
use crate::stop::Stop;
use desk_base::{Duplicate, List, Str};
use desk_words::{TextRow, Which};
use master_rows::Master;
use std::alloc::Global;

/// The row of a new master, where the masters so far have so many cells.
pub fn master_row(
    alloc: Global,
    masters: &[TextRow],
    cells: u64,
    name: &Str,
    body: &List<u8>,
) -> Result<TextRow, Stop>
    requires versions { AreVersions (λ row. row.name) (λ row. row.version) masters.now }
    requires few { length masters.now < 2 ^ 31 }
    requires cells { cells ≡ master_cells masters.now }
    requires bound { cells < 2 ^ 63 }
    ensures { Finds result (master_row masters.now name.now body.now) }
{
    proper_name(name)?;
    let brought = cell_count(alloc, body.as_slice())?;
    within(Which::Masters, masters.len() as u64 + 1)?;
    within(Which::MasterCells, cells + brought)?;
    let version = next_version(masters, name.as_str());
    Ok(TextRow {
        name: name_text(alloc, name)?,
        version,
        body: body.copy()?,
    })
}

/// How many cells the master of a sheet has, without its header.
fn cell_count(alloc: Global, sheet: &[u8]) -> Result<u64, Stop>
    ensures finds { Finds result (cells_of sheet.now) }
    ensures few { IfOk result (λ count. count < 2 ^ 32) }
{
    match Master::outline(alloc, sheet) {
        Ok(outline) => Ok(outline.columns.len() as u64 * u64::from(outline.rows)),
        Err(fault) => Err(sheet_stop(fault)),
    }
}
