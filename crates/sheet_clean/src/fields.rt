//! The fields of a record, as slices of it, and as texts.
ghost use Rattle.std.specs.Prelude.{◌≡◌, ◌<◌, IfOk, IfSome, is_some, length};
ghost use Rattle.std.specs.List.{list_all};
ghost use Rattle.std.specs.Str.{is_utf8};
ghost use Rattle.csv.specs.Records.{fields_of};
ghost use Rattle.desk_base.specs.Places.{has_text, place_of};
ghost use Rattle.desk_base.specs.Texts.{bytes_of};

use csv::ByteRecord;
use desk_base::{List, NoMemory, Str, is_utf8};
use std::alloc::Global;

/// The fields of a record, in their order.
pub fn fields_of(alloc: Global, source: &ByteRecord) -> Result<Vec<&[u8]>, NoMemory>
    ensures { IfOk result (λ fields. bytes_of fields.items ≡ fields_of source.now) }
{
    let mut fields = Vec::with_capacity(alloc, source.len())?;
    'places: for place in 0..source.len() {
        if let Some(field) = source.get(place) {
            fields.push(field)?;
        }
    }
    Ok(fields)
}

/// Whether each field is UTF-8.
pub(crate) fn are_texts(fields: &[&[u8]]) -> bool
    ensures { result ≡ list_all is_utf8 (bytes_of fields.now) }
{
    'fields: for field in fields {
        if !is_utf8(field) {
            return false;
        }
    }
    true
}

/// The fields as texts, where all of them are UTF-8.
pub(crate) fn texts_of(alloc: Global, fields: &[&[u8]]) -> Result<Option<List<Str>>, NoMemory>
    ensures utf8 { IfOk result (λ texts. is_some texts ≡ list_all is_utf8 (bytes_of fields.now)) }
    ensures texts { IfOk result (λ texts. IfSome texts (λ found. found ≡ bytes_of fields.now)) }
{
    let mut texts = List::new(alloc);
    'fields: for field in fields {
        match std::str::from_utf8(field) {
            Ok(text) => texts.push(Str::new(alloc, text)?)?,
            Err(_) => return Ok(None),
        }
    }
    Ok(Some(texts))
}

/// The place of the first of these texts that equals this one, counted from 0.
pub(crate) fn place_of(texts: &[Str], text: &str) -> Option<usize>
    ensures found { result ≡ place_of texts.now text.now }
    ensures within { IfSome result (λ place. place < length texts.now) }
{
    texts.iter().position(|one| text == one.as_str())
}

/// Whether this text is one of these.
pub(crate) fn has_text(texts: &[Str], text: &str) -> bool
    ensures { result ≡ has_text texts.now text.now }
{
    texts.iter().any(|one| text == one.as_str())
}
