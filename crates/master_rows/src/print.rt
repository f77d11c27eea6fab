//! The sheet of a master, record by record.
ghost use Rattle.std.specs.Prelude.{◌≡◌, ◌<◌, ◌+◌, [], length, slice_index_or, IfOk};
ghost use Rattle.master_rows.specs.Sheet.{sheet_of};
ghost use Rattle.desk_base.specs.Texts.{bytes_of};

use crate::master::Master;
use csv::{Error, WriterBuilder};
use desk_base::{Grid, Text};
use std::alloc::Global;

/// The fields of a header.
fn header_fields(alloc: Global, columns: &[Text]) -> Result<Vec<&[u8]>, Error>
    ensures { IfOk result (λ fields. bytes_of fields.items ≡ columns.now) }
{
    let mut fields = Vec::new(alloc);
    for column in columns {
        if fields.push(column.as_str().as_bytes()).is_err() {
            return Err(Error::out_of_memory());
        }
    }
    Ok(fields)
}

/// The fields of a row, counted from 0.
fn row_fields(alloc: Global, grid: &Grid, row: u32) -> Result<Vec<&[u8]>, Error>
    requires within { row < length grid.now.rows }
    requires full { length (slice_index_or grid.now.rows row []) ≡ grid.now.columns }
    ensures { IfOk result (λ fields.
        bytes_of fields.items ≡ slice_index_or grid.now.rows row []) }
{
    let mut fields = Vec::new(alloc);
    for column in 0..grid.columns() {
        if fields.push(grid.cell(row, column).as_bytes()).is_err() {
            return Err(Error::out_of_memory());
        }
    }
    Ok(fields)
}

/// The bytes of a master's sheet.
pub(crate) fn sheet_bytes(alloc: Global, master: &Master) -> Result<Vec<u8>, Error>
    ensures { IfOk result (λ bytes. bytes.items ≡ sheet_of master.now) }
{
    let mut writer = WriterBuilder::new().from_writer(Vec::new(alloc));
    let header = header_fields(alloc, master.columns.as_slice())?;
    writer.write_fields(header.as_slice())?;
    for row in 0..master.grid.rows() {
        let fields = row_fields(alloc, &master.grid, row)?;
        writer.write_fields(fields.as_slice())?;
    }
    match writer.into_inner() {
        Ok(bytes) => Ok(bytes),
        Err(e) => Err(e.into_error()),
    }
}
