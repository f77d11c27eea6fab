//! What holds of the definitions: however a stream comes in pieces, it is cut alike, and a target has the route whose
//! pattern it spells.
ghost use Rattle.std.specs.Prelude.{◌≡◌, ℕ, List, Some, ◌++◌};
ghost use Rattle.httparse.specs.Grammar.{RequestHead};
ghost use Rattle.http_cut.specs.declared.route.Route.{Route};
ghost use Rattle.http_cut.specs.declared.step.BadRest.{BadRest};
ghost use Rattle.http_cut.specs.Cut.{WholeRequest, BeginsRequest, IsBadRest, End, IsCut};
ghost use Rattle.http_cut.specs.Head.{HasHead, AwaitsHead, IsBadHead};
ghost use Rattle.http_cut.specs.Routes.{Match, match_of, SpellsRoute};

use crate::routes::Routes;
use crate::step::{Step, first_step};

/// A head that stands is there whatever follows, and it is the one that is found then.
pub fn a_head_stays(bytes: &[u8], more: &[u8])
    ensures stays { (head : RequestHead) → HasHead bytes.now head → HasHead (bytes.now ++ more.now) head }
    ensures same { (head other : RequestHead) → HasHead bytes.now head
        → HasHead (bytes.now ++ more.now) other → head ≡ other }
{}

/// A bad head is one whatever follows, and no head is awaited there.
pub fn a_bad_head_stays(bytes: &[u8], more: &[u8])
    requires { IsBadHead bytes.now }
    ensures stays { IsBadHead (bytes.now ++ more.now) }
    ensures not_awaited { ¬ (AwaitsHead bytes.now) }
{}

/// What stands at the front of some bytes stands there whatever follows.
pub fn the_front_stays(bytes: &[u8], more: &[u8])
    ensures request { (head : RequestHead) (body rest : List ℕ) → BeginsRequest bytes.now head body rest
        → BeginsRequest (bytes.now ++ more.now) head body (rest ++ more.now) }
    ensures bad { (kind : BadRest) → IsBadRest bytes.now kind → IsBadRest (bytes.now ++ more.now) kind }
{}

/// Every stream has a cut: its requests are taken off the front, one by one, until what is left begins with none.
pub fn a_stream_has_a_cut(routes: &Routes, bytes: &[u8])
    ensures { (requests : List WholeRequest) × (rest : List ℕ) × (end : End) × IsCut bytes.now requests rest end }
{
    let mut rest = bytes;
    'requests: loop {
        match first_step(routes, rest) {
            Step::Whole(request) => rest = &rest[request.body.end..],
            Step::NeedMore(_) => return,
            Step::Bad(_, _) => return,
        }
    }
}

/// A stream has at most one cut.
pub fn a_stream_has_one_cut(bytes: &[u8])
    ensures { (requests others : List WholeRequest) (rest left : List ℕ) (end last : End)
        → IsCut bytes.now requests rest end → IsCut bytes.now others left last
        → (requests ≡ others) × (rest ≡ left) × (end ≡ last) }
{}

/// matchit finds for a target exactly the route whose pattern the target spells.
pub fn a_route_is_spelled(target: &str)
    ensures found { (found : Match) → match_of target.now ≡ Some found → SpellsRoute found.0 target.now }
    ensures only { (route : Route) → SpellsRoute route target.now
        → (parts : List (List ℕ × List ℕ)) × (match_of target.now ≡ Some (route, parts)) }
{}
