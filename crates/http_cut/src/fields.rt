//! The fields of a head, by their names.
ghost use Rattle.std.specs.Prelude.{◌≡◌, ◌≢◌, ◌↔◌, [], IsTrue, length, map, codes, All};
ghost use Rattle.std.specs.Str.{str_eq_ignore_ascii_case};
ghost use Rattle.httparse.specs.Spans.{IsHeaderWithin, header_bytes};
ghost use Rattle.http_cut.specs.Fields.{values_of, body_length};
ghost use Rattle.http_cut.specs.Looks.{AreFound};

use crate::digits::number;
use httparse::spans::{HeaderSpan, Span};

/// The most digits of a body's length.
const LENGTH_DIGITS: usize = 10;

/// The fields `Content-Length` of a head are bad: there are several, or one that is not 1 to 10 digits.
#[derive(Clone, Copy, Debug, PartialEq, Eq)]
pub struct BadLength;

/// The values of the fields of one name.
#[derive(Clone, Copy)]
pub enum Found {
    Nothing,
    One(Span),
    Several,
}

/// The values of the fields of this name, in small or capital letters.
pub fn find(bytes: &[u8], headers: &[HeaderSpan], name: &[u8]) -> Found
    requires { All (IsHeaderWithin (length bytes.now)) headers.now }
    ensures { AreFound bytes.now (values_of name.now (map (header_bytes bytes.now) headers.now)) result }
{
    let mut found = Found::Nothing;
    'headers: for header in headers {
        if is_named(header.name.of(bytes), name) {
            found = match found {
                Found::Nothing => Found::One(header.value),
                _ => Found::Several,
            };
        }
    }
    found
}

/// Whether a field's name is this name, in small or capital letters.
pub fn is_named(field: &[u8], name: &[u8]) -> bool
    ensures { result ≡ str_eq_ignore_ascii_case field.now name.now }
{
    field.eq_ignore_ascii_case(name)
}

/// How many bytes the body has by the fields `Content-Length` of its head, where one of them says it.
pub fn body_length(bytes: &[u8], headers: &[HeaderSpan]) -> Result<Option<u64>, BadLength>
    requires { All (IsHeaderWithin (length bytes.now)) headers.now }
    ensures { result ≡ body_length (values_of (codes "content-length") (map (header_bytes bytes.now) headers.now)) }
{
    match find(bytes, headers, b"content-length") {
        Found::Nothing => Ok(None),
        Found::One(value) => match number(value.of(bytes), LENGTH_DIGITS) {
            Some(length) => Ok(Some(length)),
            None => Err(BadLength),
        },
        Found::Several => Err(BadLength),
    }
}

/// Whether a field of this name stands.
pub fn has_field(bytes: &[u8], headers: &[HeaderSpan], name: &[u8]) -> bool
    requires { All (IsHeaderWithin (length bytes.now)) headers.now }
    ensures { IsTrue result ↔ (values_of name.now (map (header_bytes bytes.now) headers.now) ≢ []) }
{
    match find(bytes, headers, name) {
        Found::Nothing => false,
        _ => true,
    }
}
