//! What stands before the machine: a guard, and pages.
ghost use Rattle.std.specs.Prelude.{◌≡◌, Some};
ghost use Rattle.std.specs.List.{find};
ghost use Rattle.httparse.specs.Grammar.{RequestHead};
ghost use Rattle.http_cut.specs.Looks.{ShowsRequest};
ghost use Rattle.http_desk.specs.Fronts.{asks_for, asks_text, is_kept_out, bare, stopped_at};

use crate::declined::Declined;
use crate::guard::is_foreign;
use crate::refusal::Refused;
use crate::status::ContentType;
use http_cut::Request;
use std::marker::Model;

/// A text of the program itself, that is shown at a path.
#[derive(Clone, Copy, Debug)]
pub struct Page {
    /// The whole target of a request for it, as `/`.
    pub path: &'static str,
    pub kind: ContentType,
    pub text: &'static str,
}

/// What stands before the machine: where it guards a port, requests that are foreign to it are declined; and pages are
/// shown. A clause sees the port and the list of pages.
#[derive(Debug, Drop)]
pub struct Front<'p> {
    guarded: Option<u16>,
    pages: &'p [Page],
}

impl<'p> Model for Front<'p> {
    ghost use Rattle.http_desk.specs.Fronts.{Front as FrontOf};

    ghost Value = { FrontOf };

    ghost view = { λ f. record { guarded = f.guarded; pages = f.pages.now } };
}

impl<'p> Front<'p> {
    /// No guard, and no pages.
    pub fn bare() -> Front<'p>
        ensures { result ≡ bare }
    {
        Front {
            guarded: None,
            pages: &[],
        }
    }

    /// The guard of a port, and behind it these pages.
    pub fn guarded(port: u16, pages: &'p [Page]) -> Front<'p>
        ensures { result ≡ record { guarded = Some port; pages = pages.now } }
    {
        Front {
            guarded: Some(port),
            pages,
        }
    }

    /// Why a request is answered before its route is looked for, where it is.
    pub(crate) fn stop(&self, bytes: &[u8], request: &Request) -> Option<Declined>
        requires { (head : RequestHead) × ShowsRequest bytes.now request.now head }
        ensures { (head : RequestHead) → ShowsRequest bytes.now request.now head
            → result ≡ stopped_at self.now head }
    {
        if self.keeps_out(bytes, request) {
            return Some(Declined::Refused(Refused::Origin));
        }
        let page = page_for(
            self.pages,
            request.method.of(bytes),
            request.target.of(bytes),
        )?;
        Some(Declined::Shown(page))
    }

    /// Whether a port is guarded, and a request foreign to it.
    fn keeps_out(&self, bytes: &[u8], request: &Request) -> bool
        requires { (head : RequestHead) × ShowsRequest bytes.now request.now head }
        ensures { (head : RequestHead) → ShowsRequest bytes.now request.now head
            → result ≡ is_kept_out self.now.guarded head }
    {
        match self.guarded {
            Some(port) => is_foreign(bytes, port),
            None => false,
        }
    }
}

/// The first page that a request with this method and this target asks for.
fn page_for(pages: &[Page], method: &[u8], target: &[u8]) -> Option<Page>
    ensures { result ≡ find (asks_for method.now target.now) pages.now }
{
    pages
        .iter()
        .copied()
        .find(|page| asks_text(method) && page.path.as_bytes() == target)
}

fn asks_text(method: &[u8]) -> bool
    ensures { result ≡ asks_text method.now }
{
    method == b"GET".as_slice() || method == b"HEAD".as_slice()
}
