//! Whether a request is foreign to a port: by its fields `Host` and `Origin`.
ghost use Rattle.std.specs.Prelude.{◌≡◌, ◌++◌, All, codes, length, map};
ghost use Rattle.std.specs.List.{list_all};
ghost use Rattle.std.specs.Str.{bytes_eq};
ghost use Rattle.httparse.specs.Grammar.{RequestHead};
ghost use Rattle.httparse.specs.Spans.{IsHeaderWithin, header_bytes};
ghost use Rattle.http_cut.specs.Fields.{values_of};
ghost use Rattle.http_cut.specs.Head.{HasHead};
ghost use Rattle.desk_base.specs.Places.{has_text};
ghost use Rattle.http_desk.specs.Fronts.{hosts, is_foreign, is_own_origin, names_host};

use http_cut::{Found, HeadFields, find, is_named};
use httparse::spans::HeaderSpan;
use itoa::Buffer;

/// Whether the request that the bytes begin with is foreign to a port.
pub fn is_foreign(bytes: &[u8], port: u16) -> bool
    requires { (head : RequestHead) × HasHead bytes.now head }
    ensures { (head : RequestHead) → HasHead bytes.now head → result ≡ is_foreign port head }
{
    let fields = HeadFields::of(bytes);
    let mut buffer = Buffer::new();
    let digits = buffer.format(port).as_bytes();
    !(names_host(bytes, fields.spans(), digits) && has_own_origins(bytes, fields.spans(), digits))
}

/// Whether exactly one host is named, and it is one of the port's with these digits.
fn names_host(bytes: &[u8], fields: &[HeaderSpan], digits: &[u8]) -> bool
    requires { All (IsHeaderWithin (length bytes.now)) fields.now }
    ensures { result ≡ names_host digits.now (values_of (codes "host") (map (header_bytes bytes.now) fields.now)) }
{
    match find(bytes, fields, b"host") {
        Found::One(host) => is_host(host.of(bytes), digits),
        Found::Nothing | Found::Several => false,
    }
}

/// Whether each origin that is named is one of the port's with these digits.
fn has_own_origins(bytes: &[u8], fields: &[HeaderSpan], digits: &[u8]) -> bool
    requires { All (IsHeaderWithin (length bytes.now)) fields.now }
    ensures { result ≡ list_all (is_own_origin digits.now)
        (values_of (codes "origin") (map (header_bytes bytes.now) fields.now)) }
{
    let mut left = fields;
    'fields: while let [field, others @ ..] = left {
        if is_named(field.name.of(bytes), b"origin")
            && !is_own_origin(field.value.of(bytes), digits)
        {
            return false;
        }
        left = others;
    }
    true
}

fn is_own_origin(origin: &[u8], digits: &[u8]) -> bool
    ensures { result ≡ is_own_origin digits.now origin.now }
{
    match origin.strip_prefix(b"http://") {
        Some(host) => is_host(host, digits),
        None => false,
    }
}

fn is_host(text: &[u8], digits: &[u8]) -> bool
    ensures { result ≡ has_text (hosts digits.now) text.now }
{
    is_text_of(text, b"127.0.0.1:", digits) || is_text_of(text, b"localhost:", digits)
}

/// Whether a text is a name and these digits.
fn is_text_of(text: &[u8], name: &[u8], digits: &[u8]) -> bool
    ensures { result ≡ bytes_eq text.now (name.now ++ digits.now) }
{
    match text.strip_prefix(name) {
        Some(rest) => rest == digits,
        None => false,
    }
}
