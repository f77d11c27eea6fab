//! The fields of a record as texts.
ghost use Rattle.std.specs.Prelude.{◌≡◌, ◌<◌, length, IfOk, IfSome, Some, is_some};
ghost use Rattle.std.specs.List.{list_all};
ghost use Rattle.std.specs.Str.{is_utf8};
ghost use Rattle.csv.specs.Records.{field_at, fields_of};
ghost use Rattle.desk_base.specs.Texts.{bytes_of};

use csv::ByteRecord;
use desk_base::NoMemory;
use std::alloc::Global;

/// The field of a record at this place, counted from 0.
pub fn field_at(source: &ByteRecord, place: usize) -> &[u8]
    requires { place < length (fields_of source.now) }
    ensures { field_at (fields_of source.now) place ≡ Some result.now }
{
    match source.get(place) {
        Some(field) => field,
        None => unreachable!(),
    }
}

/// The fields of a record, in their order, where all of them are UTF-8.
pub(crate) fn texts_of(alloc: Global, source: &ByteRecord) -> Result<Option<Vec<&str>>, NoMemory>
    ensures utf8 { IfOk result (λ texts. is_some texts ≡ list_all is_utf8 (fields_of source.now)) }
    ensures texts { IfOk result (λ texts. IfSome texts (λ found. bytes_of found.items ≡ fields_of source.now)) }
{
    let mut texts = Vec::with_capacity(alloc, source.len())?;
    'places: for place in 0..source.len() {
        match std::str::from_utf8(field_at(source, place)) {
            Ok(text) => texts.push(text)?,
            Err(_) => return Ok(None),
        }
    }
    Ok(Some(texts))
}
