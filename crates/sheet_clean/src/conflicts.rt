//! The lines of a row in the sheet of conflicts.
ghost use Rattle.std.specs.Prelude.{◌≡◌, ◌<◌, ◌++◌, IfOk, OnOk, flat_map};
ghost use Rattle.std.specs.List.{range_with_len};
ghost use Rattle.desk_base.specs.Texts.{bytes_of};
ghost use Rattle.fix_model.specs.States.{cell_at, fixed_by};
ghost use Rattle.sheet_clean.specs.Fields.{conflict_line, end_fields};
ghost use Rattle.sheet_clean.specs.Row.{typed_at};
ghost use Rattle.sheet_clean.specs.SheetRows.{IsRowAt};
ghost use Rattle.sheet_clean.specs.Steps.{origin_digits};
ghost use Rattle.sheet_clean.specs.Writing.{Writes};

use crate::clean_row::shown;
use crate::line::line_at;
use crate::row_cleaner::RowCleaner;
use crate::steps::{digits_of, push_origin, row_digits};
use crate::writing::write;
use csv::Writer;
use desk_base::NoMemory;
use fix_choices::differs;
use fix_model::{Book, State};

/// Writes the lines of a row at a conflict, one for each attribute whose texts differ at the two ends, and answers how
/// many.
pub(crate) fn write_conflicts<B: Book<()>>(
    cleaner: &RowCleaner<'_, B>,
    writer: &mut Writer<Vec<u8>>,
    first: &State,
    second: &State,
) -> Result<u64, NoMemory>
    requires first { IsRowAt (B.kit cleaner.now.book.now) cleaner.now.row first.now }
    requires second { IsRowAt (B.kit cleaner.now.book.now) cleaner.now.row second.now }
    ensures { let kit = B.kit cleaner.now.book.now in
        let row = cleaner.now.row in
        IfOk result (λ count. Writes row.setting.now writer.old writer.new
        (flat_map (conflict_line kit row.setting.now row.layout.now.header row.number (bytes_of row.cells.now)
        first.now second.now) (range_with_len 0 kit.width)) count) }
{
    let width = cleaner.book.width();
    let mut count = 0;
    'attributes: for attribute in 0..width {
        count += write_ends(cleaner, writer, first, second, attribute)?;
    }
    Ok(count)
}

/// Writes the line of an attribute, if its texts at the two ends differ, and answers how many lines these are.
fn write_ends<B: Book<()>>(
    cleaner: &RowCleaner<'_, B>,
    writer: &mut Writer<Vec<u8>>,
    first: &State,
    second: &State,
    attribute: u16,
) -> Result<u64, NoMemory>
    requires first { IsRowAt (B.kit cleaner.now.book.now) cleaner.now.row first.now }
    requires second { IsRowAt (B.kit cleaner.now.book.now) cleaner.now.row second.now }
    requires within { attribute < (B.kit cleaner.now.book.now).width }
    ensures lines { let row = cleaner.now.row in
        IfOk result (λ count. Writes row.setting.now writer.old writer.new
        (conflict_line (B.kit cleaner.now.book.now) row.setting.now row.layout.now.header row.number
        (bytes_of row.cells.now) first.now second.now attribute) count) }
    ensures one { IfOk result (λ count. count < 2) }
{
    if !differs::<(), B>(cleaner.book, first, second, attribute) {
        return Ok(0);
    }
    let digits = digits_of(cleaner.alloc, cleaner.row.number)?;
    let first_row = row_digits(cleaner.alloc, first.fixed_by(attribute))?;
    let second_row = row_digits(cleaner.alloc, second.fixed_by(attribute))?;
    let mut line = line_at(cleaner, digits.as_str(), attribute)?;
    push_end(&mut line, cleaner, first, attribute, first_row.as_str())?;
    push_end(&mut line, cleaner, second, attribute, second_row.as_str())?;
    write(writer, line.as_slice())?;
    Ok(1)
}

/// Puts the text of an attribute at an end after the fields of a line, with the step that fixed it there.
fn push_end<'a, B: Book<()>>(
    line: &mut Vec<&'a [u8]>,
    cleaner: &'a RowCleaner<'_, B>,
    end: &'a State,
    attribute: u16,
    digits: &'a str,
) -> Result<(), NoMemory>
    requires row_at { IsRowAt (B.kit cleaner.now.book.now) cleaner.now.row end.now }
    requires within { attribute < (B.kit cleaner.now.book.now).width }
    requires digits_are { digits.now ≡ origin_digits (fixed_by (cell_at end.now attribute)) }
    ensures { let row = cleaner.now.row in
        let typed = typed_at row.setting.now row.layout.now.header (bytes_of row.cells.now) attribute in
        OnOk result (bytes_of line.new.items ≡ bytes_of line.old.items
        ++ end_fields (B.kit cleaner.now.book.now) row.setting.now end.now typed attribute) }
{
    let typed = cleaner.row.typed(attribute);
    line.push(shown(cleaner.book, end, typed, attribute))?;
    push_origin(line, cleaner, end.fixed_by(attribute), digits)?;
    Ok(())
}
