//! The fields of a head that stands.
ghost use Rattle.std.specs.Prelude.{◌≡◌, length, map, All};
ghost use Rattle.httparse.specs.Grammar.{RequestHead};
ghost use Rattle.httparse.specs.Spans.{IsHeaderWithin, header_bytes, name_and_value};
ghost use Rattle.http_cut.specs.Head.{HasHead};

use crate::front::{Parsed, parse};
use desk_base::MAX_FIELDS;
use httparse::spans::{EMPTY_HEADER_SPAN, HeaderSpan};
use std::marker::Model;

/// Where the names and the values of a head's fields stand. A clause sees them as a list of spans.
#[derive(Drop)]
pub struct HeadFields {
    headers: [HeaderSpan; MAX_FIELDS],
    count: usize,
}

impl Model for HeadFields {
    ghost use Rattle.std.specs.Prelude.{◌≤◌, List, take};
    ghost use Rattle.httparse.specs.declared.spans.HeaderSpan.{HeaderSpan as SpanOf};
    ghost use Rattle.desk_base.specs.declared.limits.TheConstants.{MAX_FIELDS as MOST};

    ghost Value = { List SpanOf };

    ghost view = { λ f. take f.count f.headers };

    ghost invariant = { λ f. f.count ≤ MOST };
}

impl HeadFields {
    /// The fields of the head that the bytes begin with.
    pub fn of(bytes: &[u8]) -> HeadFields
        requires { (head : RequestHead) × HasHead bytes.now head }
        ensures within { All (IsHeaderWithin (length bytes.now)) result }
        ensures fields { (head : RequestHead) → HasHead bytes.now head
            → map (header_bytes bytes.now) result ≡ map name_and_value head.fields }
    {
        let mut headers = [EMPTY_HEADER_SPAN; MAX_FIELDS];
        let count = match parse(bytes, &mut headers) {
            Parsed::Whole(spans) => spans.headers,
            Parsed::Unfinished => 0,
            Parsed::Never => 0,
        };
        HeadFields { headers, count }
    }

    /// Where they stand.
    pub fn spans(&self) -> &[HeaderSpan]
        ensures { result.now ≡ self.now }
    {
        &self.headers[..self.count]
    }
}
