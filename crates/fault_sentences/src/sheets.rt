//! The sentences on sheets.
ghost use Rattle.std.specs.Prelude.{◌≡◌, ◌++◌, length, IfOk, OnOk};
ghost use Rattle.fault_sentences.specs.Equals.{equals_earlier, numbered};
ghost use Rattle.fault_sentences.specs.Records.{field_of, fields_at};
ghost use Rattle.fault_sentences.specs.Sheets.{at_other_byte, bad_column, bad_column_in, cell_long, column_fault};
ghost use Rattle.fault_sentences.specs.Sheets.{column_long, column_twice};
ghost use Rattle.fault_sentences.specs.Sheets.{has_fields, header_not_utf8, not_utf8_in, ragged, row_not_utf8};
ghost use Rattle.fault_sentences.specs.Sheets.{most_rows, sheet_sentence, too_many_columns, too_many_rows};

use crate::records::{equal_field, field_of, fields_at, other_field};
use crate::sentence::Sentence;
use desk_base::{List, NoMemory};
use master_rows::{SheetFault, begins_with_mark, begins_with_two_marks};
use std::alloc::Global;

/// Says why a sheet is refused, which may have so many rows: the row or the column, what stands there, and what was
/// expected or what to do.
#[tactic(auto, unfolding(crate::specs::Sheets::sheet_sentence))]
pub fn sheet_sentence(
    alloc: Global,
    fault: SheetFault,
    most: u32,
    sheet: &[u8],
) -> Result<Sentence, NoMemory>
    ensures { IfOk result (λ sentence. sentence ≡ sheet_sentence fault most sheet.now) }
{
    let mut out = Sentence::new(alloc);
    match fault {
        SheetFault::NotUtf8(row) => not_utf8_in(&mut out, row, sheet)?,
        SheetFault::NoHeader => out.words("the sheet is empty; its first line names the columns")?,
        SheetFault::BadColumn(number) => bad_column_in(&mut out, number, sheet)?,
        SheetFault::ColumnTwice(number) => {
            column_twice(&mut out, number, fields_at(alloc, sheet, 0)?.as_slice())?;
        }
        SheetFault::Ragged(row) => ragged_in(&mut out, row, sheet)?,
        SheetFault::CellLong(row, number) => cell_long_in(&mut out, row, number, sheet)?,
        SheetFault::TooManyRows => too_many_rows(&mut out, most)?,
        SheetFault::TooManyColumns => {
            too_many_columns(&mut out, fields_at(alloc, sheet, 0)?.as_slice())?;
        }
        SheetFault::NoMemory => out.no_memory()?,
    }
    Ok(out)
}

/// A field that is not UTF-8.
#[tactic(auto, unfolding(crate::specs::Sheets::not_utf8_in))]
fn not_utf8_in(out: &mut Sentence, row: u64, sheet: &[u8]) -> Result<(), NoMemory>
    ensures { OnOk result (out.new ≡ out.old ++ not_utf8_in row sheet.now) }
{
    let header = fields_at(out.allocator(), sheet, 0)?;
    if row == 0 {
        return header_not_utf8(out, header.as_slice());
    }
    let fields = fields_at(out.allocator(), sheet, row)?;
    row_not_utf8(out, header.as_slice(), row, fields.as_slice())
}

#[tactic(auto, unfolding(crate::specs::Sheets::header_not_utf8))]
fn header_not_utf8(out: &mut Sentence, header: &[List<u8>]) -> Result<(), NoMemory>
    ensures { OnOk result (out.new ≡ out.old ++ header_not_utf8 header.now) }
{
    let number = other_field(header);
    out.words("the header is not UTF-8 in column ")?;
    out.number(number)?;
    at_other_byte(out, field_of(header, number))
}

#[tactic(auto, unfolding(crate::specs::Sheets::row_not_utf8))]
fn row_not_utf8(
    out: &mut Sentence,
    header: &[List<u8>],
    row: u64,
    fields: &[List<u8>],
) -> Result<(), NoMemory>
    ensures { OnOk result (out.new ≡ out.old ++ row_not_utf8 header.now row fields.now) }
{
    let number = other_field(fields);
    out.words("row ")?;
    out.number(row)?;
    out.words(" is not UTF-8 in the column ")?;
    out.shown(field_of(header, number))?;
    at_other_byte(out, field_of(fields, number))
}

/// With which byte a field stops to be UTF-8, and what to do.
#[tactic(auto, unfolding(crate::specs::Sheets::at_other_byte))]
fn at_other_byte(out: &mut Sentence, field: &[u8]) -> Result<(), NoMemory>
    ensures { OnOk result (out.new ≡ out.old ++ at_other_byte field.now) }
{
    out.words(", at ")?;
    out.other_byte(field)?;
    out.words("; save the sheet as UTF-8")
}

/// A column that has not the form of one.
#[tactic(auto, unfolding(crate::specs::Sheets::bad_column_in))]
fn bad_column_in(out: &mut Sentence, number: u64, sheet: &[u8]) -> Result<(), NoMemory>
    ensures { OnOk result (out.new ≡ out.old ++ bad_column_in number sheet.now) }
{
    if begins_with_two_marks(sheet) {
        return out.words("column 1 begins with a second byte order mark; take it off");
    }
    let header = fields_at(out.allocator(), sheet, 0)?;
    bad_column(out, number, field_of(header.as_slice(), number))
}

#[tactic(auto, unfolding(crate::specs::Sheets::bad_column))]
fn bad_column(out: &mut Sentence, number: u64, column: &[u8]) -> Result<(), NoMemory>
    ensures { OnOk result (out.new ≡ out.old ++ bad_column number column.now) }
{
    out.words("column ")?;
    out.number(number)?;
    column_fault(out, column)
}

/// Why a column has not the form of one.
#[tactic(auto, unfolding(crate::specs::Sheets::column_fault))]
fn column_fault(out: &mut Sentence, column: &[u8]) -> Result<(), NoMemory>
    ensures { OnOk result (out.new ≡ out.old ++ column_fault column.now) }
{
    if column.is_empty() {
        out.words(" has no name; give it one, or take it out of each row")
    } else if begins_with_mark(column) {
        out.words(" begins with a byte order mark; take it off")
    } else {
        column_long(out, column)
    }
}

#[tactic(auto, unfolding(crate::specs::Sheets::column_long))]
fn column_long(out: &mut Sentence, column: &[u8]) -> Result<(), NoMemory>
    ensures { OnOk result (out.new ≡ out.old ++ column_long column.now) }
{
    out.words(", ")?;
    out.quoted(column)?;
    out.words(",")?;
    out.has_bytes(column.len())?;
    out.words(", and a column has at most 64; shorten it")
}

/// A column that equals an earlier one.
#[tactic(auto, unfolding(crate::specs::Sheets::column_twice))]
fn column_twice(out: &mut Sentence, number: u64, header: &[List<u8>]) -> Result<(), NoMemory>
    ensures { OnOk result (out.new ≡ out.old ++ column_twice number header.now) }
{
    let column = field_of(header, number);
    out.equals_earlier("column ", number, column, equal_field(header, column))?;
    out.words("; give one of the two another name")
}

/// A row that has not as many fields as the header.
fn ragged_in(out: &mut Sentence, row: u64, sheet: &[u8]) -> Result<(), NoMemory>
    ensures { OnOk result (out.new ≡ out.old
        ++ ragged (length (fields_at sheet.now 0)) row (length (fields_at sheet.now row))) }
{
    let header = fields_at(out.allocator(), sheet, 0)?;
    let fields = fields_at(out.allocator(), sheet, row)?;
    ragged(out, header.len(), row, fields.len())
}

#[tactic(auto, unfolding(crate::specs::Sheets::ragged))]
fn ragged(out: &mut Sentence, columns: usize, row: u64, fields: usize) -> Result<(), NoMemory>
    ensures { OnOk result (out.new ≡ out.old ++ ragged columns row fields) }
{
    out.words("row ")?;
    out.number(row)?;
    has_fields(out, fields)?;
    out.words(", and the header has ")?;
    out.number(columns as u64)
}

#[tactic(auto, unfolding(crate::specs::Sheets::has_fields))]
fn has_fields(out: &mut Sentence, count: usize) -> Result<(), NoMemory>
    ensures { OnOk result (out.new ≡ out.old ++ has_fields count) }
{
    out.words(" has ")?;
    out.number(count as u64)?;
    out.words(if count == 1 { " field" } else { " fields" })
}

/// A cell that is too long.
fn cell_long_in(out: &mut Sentence, row: u64, number: u64, sheet: &[u8]) -> Result<(), NoMemory>
    ensures { OnOk result (out.new ≡ out.old
        ++ cell_long (field_of (fields_at sheet.now 0) number) row (field_of (fields_at sheet.now row) number)) }
{
    let header = fields_at(out.allocator(), sheet, 0)?;
    let fields = fields_at(out.allocator(), sheet, row)?;
    let column = field_of(header.as_slice(), number);
    cell_long(out, column, row, field_of(fields.as_slice(), number))
}

#[tactic(auto, unfolding(crate::specs::Sheets::cell_long))]
fn cell_long(out: &mut Sentence, column: &[u8], row: u64, cell: &[u8]) -> Result<(), NoMemory>
    ensures { OnOk result (out.new ≡ out.old ++ cell_long column.now row cell.now) }
{
    out.words("row ")?;
    out.number(row)?;
    out.has_bytes(cell.len())?;
    out.words(" in the column ")?;
    out.shown(column)?;
    out.words(", and a cell has at most 200; shorten ")?;
    out.quoted(cell)
}

/// One row more than there may be.
#[tactic(auto, unfolding(crate::specs::Sheets::too_many_rows))]
fn too_many_rows(out: &mut Sentence, most: u32) -> Result<(), NoMemory>
    ensures { OnOk result (out.new ≡ out.old ++ too_many_rows most) }
{
    out.words("row ")?;
    out.number(most as u64 + 1)?;
    most_rows(out, most)
}

#[tactic(auto, unfolding(crate::specs::Sheets::most_rows))]
fn most_rows(out: &mut Sentence, most: u32) -> Result<(), NoMemory>
    ensures { OnOk result (out.new ≡ out.old ++ most_rows most) }
{
    out.words(" is one too many; a sheet has at most ")?;
    out.number(most as u64)?;
    out.words(" rows")
}

/// More columns than there may be.
#[tactic(auto, unfolding(crate::specs::Sheets::too_many_columns))]
fn too_many_columns(out: &mut Sentence, header: &[List<u8>]) -> Result<(), NoMemory>
    ensures { OnOk result (out.new ≡ out.old ++ too_many_columns header.now) }
{
    out.words("the header has ")?;
    out.number(header.len() as u64)?;
    out.words(" columns, and a sheet has at most 48; leave out those that no rule needs")
}
