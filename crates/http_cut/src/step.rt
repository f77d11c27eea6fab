//! The next request at the front of a stream.
ghost use Rattle.std.specs.Prelude.{◌≡◌, ◌≤◌};
ghost use Rattle.desk_base.specs.declared.limits.TheConstants.{MAX_LONG_BODY};
ghost use Rattle.httparse.specs.Grammar.{RequestHead};
ghost use Rattle.http_cut.specs.Looks.{ShowsHead, IsStep};
ghost use Rattle.http_cut.specs.Routes.{body_limit};

use crate::front::{Front, HeadParts, is_head, look};
use crate::routes::Routes;
use desk_base::MAX_BODY;
use httparse::spans::Span;

/// Where the parts of a whole request stand, counted from its first byte. Where its body ends, the request does.
#[derive(Clone, Copy)]
pub struct Request {
    pub method: Span,
    pub target: Span,
    pub body: Span,
    /// Whether a field `Content-Length` stands.
    pub has_length: bool,
}

/// Why a stream ends before its bytes do.
#[derive(Clone, Copy, Debug, PartialEq, Eq)]
pub enum BadRest {
    /// No head of a request stands, and none will; or its fields `Content-Length` are bad.
    BadHead,
    /// A field `Transfer-Encoding` stands.
    Chunked,
    /// The body has more bytes than its target's route allows.
    BodyLong,
}

/// What stands at the front of a stream.
#[derive(Clone, Copy)]
pub enum Step {
    /// A whole request.
    Whole(Request),
    /// What may become one: where its head stands, it ends where this many bytes do; else one byte more is awaited.
    NeedMore(usize),
    /// A rest that ends the stream. The flag says whether a head stands there whose method is HEAD.
    Bad(BadRest, bool),
}

/// What stands at the front of these bytes (RFC 9112 as `httparse` reads it; `docs/formats.md`, *Requests*).
pub fn first_step(routes: &Routes, bytes: &[u8]) -> Step
    ensures { IsStep bytes.now result }
{
    match look(bytes) {
        Front::Head(parts) => step_at_head(routes, bytes, parts),
        Front::NeedMore => Step::NeedMore(bytes.len() + 1),
        Front::BadHead(asks_head) => Step::Bad(BadRest::BadHead, asks_head),
    }
}

/// What stands where a head does: its body may come in chunks, be too long, be awaited, or be there.
fn step_at_head(routes: &Routes, bytes: &[u8], parts: HeadParts) -> Step
    requires { (head : RequestHead) × ShowsHead bytes.now parts head }
    ensures { IsStep bytes.now result }
{
    let asks_head = is_head(parts.method.of(bytes));
    if parts.is_chunked {
        return Step::Bad(BadRest::Chunked, asks_head);
    }
    let count = parts.body_length.unwrap_or(0);
    if count > body_limit(routes, parts.target.of(bytes)) {
        return Step::Bad(BadRest::BodyLong, asks_head);
    }
    let end = parts.head_length + count as usize;
    if bytes.len() < end {
        return Step::NeedMore(end);
    }
    Step::Whole(Request {
        method: parts.method,
        target: parts.target,
        body: Span {
            start: parts.head_length,
            end,
        },
        has_length: parts.body_length.is_some(),
    })
}

/// The most bytes of a body that is sent to this target.
fn body_limit(routes: &Routes, target: &[u8]) -> u64
    ensures limit { result ≡ body_limit target.now }
    ensures few { result ≤ MAX_LONG_BODY }
{
    match routes.find(target) {
        Some(found) => found.route().body_limit(),
        None => MAX_BODY as u64,
    }
}
