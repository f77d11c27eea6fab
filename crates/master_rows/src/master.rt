//! A master: named columns over rows of cells. A clause sees both.
ghost use Rattle.std.specs.Prelude.{◌≡◌, ◌≢◌, ◌≤◌, IfOk, IfErr, Ok, Err};
ghost use Rattle.desk_base.specs.declared.limits.TheConstants.{MAX_SHEET_ROWS};
ghost use Rattle.master_rows.specs.Master.{IsMaster, IsMasterWithin};
ghost use Rattle.master_rows.specs.Outline.{read_outline};
ghost use Rattle.master_rows.specs.Sheet.{read_sheet, sheet_of, sheet_within};

use crate::draft::Draft;
use crate::error::SheetFault;
use crate::mark::begins_with_two_marks;
use crate::outline::{Outline, OutlineDraft};
use crate::print::sheet_bytes;
use desk_base::{Duplicate, Grid, List, MAX_ROWS, NoMemory, Text};
use std::alloc::Global;

/// Master data: columns, and under them rows with a cell in each.
#[derive(Debug, Drop)]
pub struct Master {
    /// The columns, in their order.
    pub columns: List<Text>,
    /// The rows, in their order.
    pub grid: Grid,
}

impl Master {
    /// Reads a sheet of at most `most` rows: CSV, with one byte order mark at its start passed over. The first record
    /// is the header. A fault is the first one that the sheet has; `NoMemory` may come in place of any answer.
    pub fn read_within(alloc: Global, most: u32, sheet: &[u8]) -> Result<Master, SheetFault>
        requires { most ≤ MAX_SHEET_ROWS }
        ensures master { IfOk result (λ master. sheet_within most sheet.now ≡ Ok master) }
        ensures sound { IfOk result (IsMasterWithin most) }
        ensures fault { IfErr result (λ fault. fault ≢ SheetFault.NoMemory
            → sheet_within most sheet.now ≡ Err fault) }
    {
        if begins_with_two_marks(sheet) {
            return Err(SheetFault::BadColumn(1));
        }
        Draft::of_sheet(alloc, most, sheet)?.finish()
    }

    /// Reads a sheet of a desk, which has at most 20,000 rows, with the faults of `read_within`.
    pub fn read(alloc: Global, sheet: &[u8]) -> Result<Master, SheetFault>
        ensures master { IfOk result (λ master. read_sheet sheet.now ≡ Ok master) }
        ensures sound { IfOk result IsMaster }
        ensures fault { IfErr result (λ fault. fault ≢ SheetFault.NoMemory
            → read_sheet sheet.now ≡ Err fault) }
    {
        Master::read_within(alloc, MAX_ROWS, sheet)
    }

    /// The outline of the master that a sheet reads as, with the faults of `read`. No cell is kept.
    pub fn outline(alloc: Global, sheet: &[u8]) -> Result<Outline, SheetFault>
        ensures outline { IfOk result (λ outline. read_outline sheet.now ≡ Ok outline) }
        ensures fault { IfErr result (λ fault. fault ≢ SheetFault.NoMemory
            → read_outline sheet.now ≡ Err fault) }
    {
        if begins_with_two_marks(sheet) {
            return Err(SheetFault::BadColumn(1));
        }
        OutlineDraft::of_sheet(alloc, sheet)?.finish()
    }

    /// The sheet of this master, with LF at the end of each line. It reads back to an equal master.
    pub fn print(&self) -> Result<List<u8>, NoMemory>
        requires { IsMaster self.now }
        ensures sheet { IfOk result (λ sheet. sheet ≡ sheet_of self.now) }
        ensures reads_back { IfOk result (λ sheet. read_sheet sheet ≡ Ok self.now) }
    {
        match sheet_bytes(self.columns.allocator(), self) {
            Ok(bytes) => Ok(List::from_vec(bytes)),
            // A sheet in memory is written without failing, so only memory was wanting.
            Err(_) => Err(NoMemory),
        }
    }
}

impl Duplicate for Master {
    fn copy(&self) -> Result<Master, NoMemory> {
        let columns = self.columns.copy()?;
        let grid = self.grid.copy()?;
        Ok(Master { columns, grid })
    }
}
