//! A look at the bytes at the front of a stream, which may begin with a head.
ghost use Rattle.std.specs.Prelude.{◌≡◌, ◌↔◌, ◌≤◌, IsTrue, codes, length};
ghost use Rattle.httparse.specs.Grammar.{RequestHead};
ghost use Rattle.httparse.specs.Spans.{IsRequestAt, IsRequestWithin};
ghost use Rattle.http_cut.specs.Looks.{IsFront, IsParsed};

use crate::fields::{body_length, has_field};
use crate::lines::has_many_lines;
use crate::target::ends_in_target;
use desk_base::{MAX_FIELDS, MAX_HEAD};
use httparse::Status;
use httparse::spans::{EMPTY_HEADER_SPAN, HeaderSpan, RequestSpans, Span, parse_request};

/// The parts of a head.
#[derive(Clone, Copy)]
pub struct HeadParts {
    /// How many bytes the head has, with the empty lines before it and the empty line at its end.
    pub head_length: usize,
    pub method: Span,
    pub target: Span,
    /// How many bytes the body has, where a field says it.
    pub body_length: Option<u64>,
    /// Whether a field `Transfer-Encoding` stands.
    pub is_chunked: bool,
}

/// How the bytes at the front of a stream begin.
#[derive(Clone, Copy)]
pub enum Front {
    /// With a head.
    Head(HeadParts),
    /// With what may become one.
    NeedMore,
    /// With a bad head. The flag says whether a head stands there whose method is HEAD.
    BadHead(bool),
}

/// What httparse answers.
#[derive(Clone, Copy)]
pub enum Parsed {
    Whole(RequestSpans),
    Unfinished,
    Never,
}

/// How the bytes at the front of a stream begin.
pub fn look(bytes: &[u8]) -> Front
    ensures { IsFront bytes.now result }
{
    let mut headers = [EMPTY_HEADER_SPAN; MAX_FIELDS];
    match parse(bytes, &mut headers) {
        Parsed::Whole(spans) => judge(bytes, &headers, &spans),
        Parsed::Unfinished => {
            if bytes.len() < MAX_HEAD && !has_many_lines(bytes) {
                Front::NeedMore
            } else {
                Front::BadHead(false)
            }
        }
        Parsed::Never => {
            if bytes.len() < MAX_HEAD && ends_in_target(bytes) {
                Front::NeedMore
            } else {
                Front::BadHead(false)
            }
        }
    }
}

/// What httparse answers to these bytes. It writes where the fields of a head stand.
pub fn parse(bytes: &[u8], headers: &mut [HeaderSpan]) -> Parsed
    requires { length headers.old ≡ 64 }
    ensures { IsParsed bytes.now headers.new result }
{
    match parse_request(bytes, headers) {
        Ok(Status::Complete(spans)) => Parsed::Whole(spans),
        Ok(Status::Partial) => Parsed::Unfinished,
        Err(_) => Parsed::Never,
    }
}

/// What a head that was found is: one within its limits with a good length, or a bad one.
fn judge(bytes: &[u8], headers: &[HeaderSpan], spans: &RequestSpans) -> Front
    requires { (head : RequestHead) × IsRequestAt bytes.now headers.now spans.now head
        × (length head.fields ≤ 64) × IsRequestWithin bytes.now headers.now spans.now }
    ensures { IsFront bytes.now result }
{
    if spans.len > MAX_HEAD {
        return Front::BadHead(false);
    }
    let fields = &headers[..spans.headers];
    match body_length(bytes, fields) {
        Ok(length) => Front::Head(HeadParts {
            head_length: spans.len,
            method: spans.method,
            target: spans.path,
            body_length: length,
            is_chunked: has_field(bytes, fields, b"transfer-encoding"),
        }),
        Err(_) => Front::BadHead(is_head(spans.method.of(bytes))),
    }
}

/// Whether a method is HEAD.
pub fn is_head(method: &[u8]) -> bool
    ensures { IsTrue result ↔ (method.now ≡ codes "HEAD") }
{
    method == b"HEAD".as_slice()
}
