//! The records of a sheet, by their places: 0 is the header, and 1 the first row.
ghost use Rattle.std.specs.Prelude.{◌≡◌, IfOk, not, option_map, position, slice_get};
ghost use Rattle.std.specs.Str.{bytes_eq, is_utf8};
ghost use Rattle.csv.specs.Records.{fields_of};
ghost use Rattle.master_rows.specs.Sheet.{sheet_records};
ghost use Rattle.fault_sentences.specs.Records.{equal_field, field_of, fields_at, other_field};

use csv::ByteRecord;
use desk_base::{List, NoMemory, is_utf8};
use master_rows::{SheetRecords, field_at};
use std::alloc::Global;

/// The fields of the record at a place, none past the last. The sheet is read no further than there.
pub(crate) fn fields_at(alloc: Global, sheet: &[u8], place: u64) -> Result<List<List<u8>>, NoMemory>
    ensures { IfOk result (λ fields. fields ≡ fields_at sheet.now place) }
{
    match record_at(alloc, sheet, place)? {
        Some(record) => fields_of(alloc, &record),
        None => Ok(List::new(alloc)),
    }
}

/// The record at a place, where there is one.
fn record_at(alloc: Global, sheet: &[u8], place: u64) -> Result<Option<ByteRecord>, NoMemory>
    ensures { IfOk result (λ found. option_map fields_of found ≡ slice_get (sheet_records sheet.now) place) }
{
    let mut records = SheetRecords::of(alloc, b',', sheet);
    let mut next = ByteRecord::new(alloc);
    let mut before = place;
    'records: while records.next_into(&mut next)? {
        if before == 0 {
            return Ok(Some(next));
        }
        before -= 1;
    }
    Ok(None)
}

/// The fields of a record.
fn fields_of(alloc: Global, source: &ByteRecord) -> Result<List<List<u8>>, NoMemory>
    ensures { IfOk result (λ fields. fields ≡ fields_of source.now) }
{
    let mut fields = List::new(alloc);
    'places: for place in 0..source.len() {
        fields.push(copy_of(alloc, field_at(source, place))?)?;
    }
    Ok(fields)
}

/// A copy of bytes.
pub(crate) fn copy_of(alloc: Global, bytes: &[u8]) -> Result<List<u8>, NoMemory>
    ensures { IfOk result (λ copy. copy ≡ bytes.now) }
{
    Ok(List::from_vec(Vec::from_slice(alloc, bytes)?))
}

/// The field with this number, counted from 1, empty past the last.
pub(crate) fn field_of(fields: &[List<u8>], number: u64) -> &[u8]
    ensures { result.now ≡ field_of fields.now number }
{
    match fields.get(number.saturating_sub(1) as usize) {
        Some(field) => field.as_slice(),
        None => &[],
    }
}

/// The number of the first field that is not UTF-8, counted from 1.
pub(crate) fn other_field(fields: &[List<u8>]) -> u64
    ensures { result ≡ other_field fields.now }
{
    match place_of_other(fields) {
        Some(place) => place as u64 + 1,
        None => 1,
    }
}

fn place_of_other(fields: &[List<u8>]) -> Option<usize>
    ensures { result ≡ position (λ field. not (is_utf8 field)) fields.now }
{
    fields.iter().position(|field| !is_utf8(field.as_slice()))
}

/// The number of the first field that equals a text, counted from 1.
pub(crate) fn equal_field(fields: &[List<u8>], text: &[u8]) -> u64
    ensures { result ≡ equal_field fields.now text.now }
{
    match place_of_equal(fields, text) {
        Some(place) => place as u64 + 1,
        None => 1,
    }
}

fn place_of_equal(fields: &[List<u8>], text: &[u8]) -> Option<usize>
    ensures { result ≡ position (bytes_eq text.now) fields.now }
{
    fields.iter().position(|field| text == field.as_slice())
}
