//! The lines of a row in the sheet of changes.
ghost use Rattle.std.specs.Prelude.{◌<◌, IfOk, Some, flat_map};
ghost use Rattle.std.specs.List.{range_with_len};
ghost use Rattle.desk_base.specs.Texts.{bytes_of};
ghost use Rattle.fix_model.specs.Rules.{IsStepOf};
ghost use Rattle.sheet_clean.specs.Fields.{change_line, fixed_lines};
ghost use Rattle.sheet_clean.specs.SheetRows.{IsRowAt, IsRowOf};
ghost use Rattle.sheet_clean.specs.Writing.{Writes};

use crate::bytes::are_equal;
use crate::line::write_step;
use crate::row_cleaner::RowCleaner;
use csv::Writer;
use desk_base::NoMemory;
use fix_model::{Book, State, Step};

/// Writes the lines of a row at a fix, one for each cell that was changed, and answers how many.
pub(crate) fn write_changes<B: Book<()>>(
    cleaner: &RowCleaner<'_, B>,
    writer: &mut Writer<Vec<u8>>,
    end: &State,
) -> Result<u64, NoMemory>
    requires { IsRowAt (B.kit cleaner.now.book.now) cleaner.now.row end.now }
    ensures { let kit = B.kit cleaner.now.book.now in
        let row = cleaner.now.row in
        IfOk result (λ count. Writes row.setting.now writer.old writer.new
        (flat_map (change_line kit row.setting.now row.layout.now.header row.number (bytes_of row.cells.now) end.now)
        (range_with_len 0 kit.width)) count) }
{
    let width = cleaner.book.width();
    let mut count = 0;
    'attributes: for attribute in 0..width {
        count += write_change(cleaner, writer, end, attribute)?;
    }
    Ok(count)
}

/// Writes the line of an attribute, if it has a column and its cell was changed, and answers how many lines these are.
fn write_change<B: Book<()>>(
    cleaner: &RowCleaner<'_, B>,
    writer: &mut Writer<Vec<u8>>,
    end: &State,
    attribute: u16,
) -> Result<u64, NoMemory>
    requires row_at { IsRowAt (B.kit cleaner.now.book.now) cleaner.now.row end.now }
    requires within { attribute < (B.kit cleaner.now.book.now).width }
    ensures lines { let row = cleaner.now.row in
        IfOk result (λ count. Writes row.setting.now writer.old writer.new
        (change_line (B.kit cleaner.now.book.now) row.setting.now row.layout.now.header row.number
        (bytes_of row.cells.now) end.now attribute) count) }
    ensures one { IfOk result (λ count. count < 2) }
{
    let row = &cleaner.row;
    if !row.layout.has_column(row.setting, attribute) {
        return Ok(0);
    }
    match end.fixed_by(attribute) {
        Some(step) => write_fixed(cleaner, writer, attribute, row.typed(attribute), step),
        None => Ok(0),
    }
}

/// Writes the line of an attribute that a step fixed, if its cell differs, and answers how many lines these are.
fn write_fixed<B: Book<()>>(
    cleaner: &RowCleaner<'_, B>,
    writer: &mut Writer<Vec<u8>>,
    attribute: u16,
    cell: &[u8],
    step: Step,
) -> Result<u64, NoMemory>
    requires row_of { IsRowOf (B.kit cleaner.now.book.now) cleaner.now.row }
    requires within { attribute < (B.kit cleaner.now.book.now).width }
    requires step_of { IsStepOf (B.kit cleaner.now.book.now) step }
    ensures lines { let row = cleaner.now.row in
        IfOk result (λ count. Writes row.setting.now writer.old writer.new
        (fixed_lines (B.kit cleaner.now.book.now) row.setting.now row.number attribute cell.now (Some step)) count) }
    ensures one { IfOk result (λ count. count < 2) }
{
    let fixed = cleaner.book.text(step).as_bytes();
    if are_equal(cell, fixed) {
        return Ok(0);
    }
    write_step(cleaner, writer, attribute, &[cell, fixed], step, &[])?;
    Ok(1)
}
