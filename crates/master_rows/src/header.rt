//! The header of a sheet: its tests, and the columns that it names.
ghost use Rattle.std.specs.Prelude.{◌≡◌, ◌≢◌, ◌≤◌, length, IsTrue, IfOk, IfErr, Some, None, []};
ghost use Rattle.std.specs.List.{list_all};
ghost use Rattle.std.specs.Str.{is_utf8};
ghost use Rattle.csv.specs.Records.{fields_of};
ghost use Rattle.master_rows.specs.Header.{is_column, columns_fault, header_fault};
ghost use Rattle.desk_base.specs.Texts.{bytes_of};

use crate::error::SheetFault;
use crate::fields::texts_of;
use crate::mark::begins_with_mark;
use csv::ByteRecord;
use desk_base::{List, MAX_COLUMN, MAX_COLUMNS, Text, has_text};
use std::alloc::Global;

/// Whether this text may stand as a column.
fn is_column(text: &str) -> bool
    ensures form { result ≡ is_column text.now }
    ensures short { IsTrue result → length text.now ≤ MAX_COLUMN }
{
    !text.is_empty() && text.len() <= MAX_COLUMN && !begins_with_mark(text.as_bytes())
}

/// The columns, tested one by one.
fn tested_columns(alloc: Global, texts: &[&str]) -> Result<List<Text>, SheetFault>
    ensures columns { IfOk result (λ columns. columns ≡ bytes_of texts.now) }
    ensures faultless { IfOk result (λ columns. columns_fault [] columns ≡ None) }
    ensures fault { IfErr result (λ fault. fault ≢ SheetFault.NoMemory
        → columns_fault [] (bytes_of texts.now) ≡ Some fault) }
{
    let mut columns = List::new(alloc);
    for text in texts {
        let number = columns.len() as u64 + 1;
        if !is_column(text) {
            return Err(SheetFault::BadColumn(number));
        }
        if has_text(columns.as_slice(), text) {
            return Err(SheetFault::ColumnTwice(number));
        }
        columns.push(Text::of(alloc, text)?)?;
    }
    Ok(columns)
}

/// The columns that a header names.
pub(crate) fn header_columns(alloc: Global, header: &ByteRecord) -> Result<List<Text>, SheetFault>
    ensures columns { IfOk result (λ columns. columns ≡ fields_of header.now) }
    ensures faultless { IfOk result (λ columns. header_fault columns ≡ None) }
    ensures fault { IfErr result (λ fault. fault ≢ SheetFault.NoMemory
        → header_fault (fields_of header.now) ≡ Some fault) }
{
    let Some(texts) = texts_of(alloc, header)? else {
        return Err(SheetFault::NotUtf8(0));
    };
    if texts.len() > MAX_COLUMNS {
        return Err(SheetFault::TooManyColumns);
    }
    tested_columns(alloc, texts.as_slice())
}
