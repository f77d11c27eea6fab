//! The data rows of a sheet: their tests, and the texts of their cells.
ghost use Rattle.std.specs.Prelude.{◌≡◌, ◌≢◌, ◌+◌, ◌<◌, ◌≤◌, length, All, IfOk, IfErr, Some, None};
ghost use Rattle.std.specs.List.{list_all};
ghost use Rattle.std.specs.Str.{is_utf8};
ghost use Rattle.csv.specs.Records.{fields_of};
ghost use Rattle.master_rows.specs.Row.{cells_fault, row_fault};
ghost use Rattle.desk_base.specs.Texts.{bytes_of};

use crate::error::SheetFault;
use crate::fields::{field_at, texts_of};
use csv::ByteRecord;
use desk_base::{Grid, MAX_TEXT, is_utf8};
use std::alloc::Global;

/// The first fault of a record that is to stand after so many rows, of `most` at most, under so many columns.
pub(crate) fn row_fault(
    most: u32,
    columns: usize,
    rows: u32,
    source: &ByteRecord,
) -> Option<SheetFault>
    ensures fault { result ≡ row_fault most columns (rows + 1) (fields_of source.now) }
    ensures few { result ≡ None → rows < most }
{
    let row = u64::from(rows) + 1;
    if rows >= most {
        return Some(SheetFault::TooManyRows);
    }
    if source.len() != columns {
        return Some(SheetFault::Ragged(row));
    }
    if !are_texts(source) {
        return Some(SheetFault::NotUtf8(row));
    }
    cells_fault(row, source)
}

/// Whether each field is UTF-8.
fn are_texts(source: &ByteRecord) -> bool
    ensures { result ≡ list_all is_utf8 (fields_of source.now) }
{
    'places: for place in 0..source.len() {
        if !is_utf8(field_at(source, place)) {
            return false;
        }
    }
    true
}

/// The first fault of the cells of a row.
fn cells_fault(row: u64, source: &ByteRecord) -> Option<SheetFault>
    ensures { result ≡ cells_fault row 1 (fields_of source.now) }
{
    'places: for place in 0..source.len() {
        if field_at(source, place).len() > MAX_TEXT {
            return Some(SheetFault::CellLong(row, place as u64 + 1));
        }
    }
    None
}

/// The first fault of a row's texts.
fn texts_fault(row: u64, texts: &[&str]) -> Option<SheetFault>
    ensures fault { result ≡ cells_fault row 1 (bytes_of texts.now) }
    ensures fits { result ≡ None → All (λ text. length text.now ≤ MAX_TEXT) texts.now }
{
    'texts: for (place, text) in texts.iter().enumerate() {
        if text.len() > MAX_TEXT {
            return Some(SheetFault::CellLong(row, place as u64 + 1));
        }
    }
    None
}

/// The texts of the row that is to stand after the others, of `most` at most.
pub(crate) fn next_row<'a>(
    alloc: Global,
    most: u32,
    grid: &Grid,
    source: &'a ByteRecord,
) -> Result<Vec<&'a str>, SheetFault>
    ensures cells { IfOk result (λ cells. bytes_of cells.items ≡ fields_of source.now) }
    ensures faultless { IfOk result (λ cells.
        row_fault most grid.now.columns (length grid.now.rows + 1) (bytes_of cells.items) ≡ None) }
    ensures fits { IfOk result (λ cells. All (λ text. length text.now ≤ MAX_TEXT) cells.items) }
    ensures few { IfOk result (λ _. length grid.now.rows < most) }
    ensures fault { IfErr result (λ fault. fault ≢ SheetFault.NoMemory
        → row_fault most grid.now.columns (length grid.now.rows + 1) (fields_of source.now)
        ≡ Some fault) }
{
    let row = u64::from(grid.rows()) + 1;
    if grid.rows() >= most {
        return Err(SheetFault::TooManyRows);
    }
    if source.len() != usize::from(grid.columns()) {
        return Err(SheetFault::Ragged(row));
    }
    let Some(texts) = texts_of(alloc, source)? else {
        return Err(SheetFault::NotUtf8(row));
    };
    match texts_fault(row, texts.as_slice()) {
        Some(fault) => Err(fault),
        None => Ok(texts),
    }
}
