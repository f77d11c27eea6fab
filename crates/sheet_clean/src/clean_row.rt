//! The line of a row in the clean sheet.
ghost use Rattle.std.specs.Prelude.{◌≡◌, ◌<◌, ◌++◌, List, ℕ, IfOk, IfSome, OnOk, length};
ghost use Rattle.csv.specs.Writing.{row_text};
ghost use Rattle.desk_base.specs.Texts.{bytes_of};
ghost use Rattle.fix_model.specs.States.{Fits};
ghost use Rattle.sheet_clean.specs.Fields.{cell_shown, cells_shown, clean_fields, cleaned_cells};
ghost use Rattle.sheet_clean.specs.Fields.{column_shown, shown_at};
ghost use Rattle.sheet_clean.specs.Fields.{verdict_field, verdict_word};
ghost use Rattle.sheet_clean.specs.Setting.{writer_of};
ghost use Rattle.sheet_clean.specs.SheetRows.{IsRowAt};
ghost use Rattle.sheet_clean.specs.Writing.{HasWritten};

use crate::layout::cell_at;
use crate::row_cleaner::RowCleaner;
use crate::writing::write;
use csv::Writer;
use desk_base::{NoMemory, Text};
use fix_engine::Verdict;
use fix_model::{Book, State};

/// Writes the line of a row, of which this was decided, with the end of the first run.
pub(crate) fn write_row<B: Book<()>>(
    cleaner: &RowCleaner<'_, B>,
    writer: &mut Writer<Vec<u8>>,
    verdict: &Verdict,
    end: &State,
) -> Result<(), NoMemory>
    requires { IsRowAt (B.kit cleaner.now.book.now) cleaner.now.row end.now }
    ensures { let row = cleaner.now.row in
        OnOk result ((text : List ℕ) → HasWritten row.setting.now writer.old text
        → HasWritten row.setting.now writer.new (text ++ row_text (writer_of row.setting.now)
        (clean_fields (B.kit cleaner.now.book.now) row.setting.now row.layout.now.header (bytes_of row.cells.now)
        verdict.now end.now))) }
{
    let mut fields = cleaned_cells(cleaner, verdict, end)?;
    push_verdict(&mut fields, &cleaner.row.setting.verdict, verdict)?;
    write(writer, fields.as_slice())?;
    Ok(())
}

/// The cells of a cleaned row.
fn cleaned_cells<'a, B: Book<()>>(
    cleaner: &'a RowCleaner<'_, B>,
    verdict: &Verdict,
    end: &'a State,
) -> Result<Vec<&'a [u8]>, NoMemory>
    requires { IsRowAt (B.kit cleaner.now.book.now) cleaner.now.row end.now }
    ensures { let row = cleaner.now.row in
        IfOk result (λ fields. bytes_of fields.items ≡ cleaned_cells (B.kit cleaner.now.book.now) row.setting.now
        row.layout.now.header (bytes_of row.cells.now) verdict.now end.now) }
{
    match verdict {
        Verdict::Fix { .. } => cells_shown(cleaner, end),
        Verdict::Conflict => {
            let mut fields = Vec::new(cleaner.alloc);
            fields.extend_from_slice(cleaner.row.cells)?;
            Ok(fields)
        }
    }
}

/// The cells of a row at the end of a run.
fn cells_shown<'a, B: Book<()>>(
    cleaner: &'a RowCleaner<'_, B>,
    end: &'a State,
) -> Result<Vec<&'a [u8]>, NoMemory>
    requires { IsRowAt (B.kit cleaner.now.book.now) cleaner.now.row end.now }
    ensures { let row = cleaner.now.row in
        IfOk result (λ fields. bytes_of fields.items ≡ cells_shown (B.kit cleaner.now.book.now) row.setting.now
        row.layout.now.header (bytes_of row.cells.now) end.now) }
{
    let count = cleaner.row.layout.header.len();
    let mut fields = Vec::new(cleaner.alloc);
    'columns: for column in 0..count {
        fields.push(cell_shown(cleaner, end, column))?;
    }
    Ok(fields)
}

/// The cell of a row in a column, at the end of a run.
fn cell_shown<'a, B: Book<()>>(
    cleaner: &'a RowCleaner<'_, B>,
    end: &'a State,
    column: usize,
) -> &'a [u8]
    requires row_at { IsRowAt (B.kit cleaner.now.book.now) cleaner.now.row end.now }
    requires within { column < length cleaner.now.row.layout.now.header }
    ensures { let row = cleaner.now.row in
        result.now ≡ cell_shown (B.kit cleaner.now.book.now) row.setting.now row.layout.now.header
        (bytes_of row.cells.now) end.now column }
{
    let row = &cleaner.row;
    let attribute = row.layout.attribute_at(row.setting, column);
    column_shown(cleaner.book, end, cell_at(row.cells, column), attribute)
}

/// The cell of a column at the end of a run.
fn column_shown<'a, B: Book<()>>(
    book: &'a B,
    end: &'a State,
    cell: &'a [u8],
    attribute: Option<usize>,
) -> &'a [u8]
    requires fits { Fits (B.kit book.now) end.now }
    requires narrow { IfSome attribute (λ number. number < 48) }
    ensures { result.now ≡ column_shown (B.kit book.now) end.now cell.now attribute }
{
    match attribute {
        Some(attribute) => shown(book, end, cell, attribute as u16),
        None => cell,
    }
}

/// The cell of an attribute at the end of a run.
pub(crate) fn shown<'a, B: Book<()>>(
    book: &'a B,
    end: &'a State,
    cell: &'a [u8],
    attribute: u16,
) -> &'a [u8]
    requires fits { Fits (B.kit book.now) end.now }
    ensures { result.now ≡ shown_at (B.kit book.now) end.now cell.now attribute }
{
    match end.fixed_by(attribute) {
        Some(step) => book.text(step).as_bytes(),
        None => cell,
    }
}

/// Puts the verdict after the fields of a line, where it is wanted.
fn push_verdict<'a>(
    fields: &mut Vec<&'a [u8]>,
    wanted: &Option<Text>,
    verdict: &Verdict,
) -> Result<(), NoMemory>
    ensures { OnOk result (bytes_of fields.new.items
        ≡ bytes_of fields.old.items ++ verdict_field wanted.now verdict.now) }
{
    if wanted.is_some() {
        fields.push(verdict_word(verdict).as_bytes())?;
    }
    Ok(())
}

fn verdict_word(verdict: &Verdict) -> &'static str
    ensures { result.now ≡ verdict_word verdict.now }
{
    match verdict {
        Verdict::Fix { certain: true, .. } => "certain",
        Verdict::Fix { certain: false, .. } => "partial",
        Verdict::Conflict => "conflict",
    }
}
