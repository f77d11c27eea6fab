//! What a whole request asks for.
ghost use Rattle.std.specs.Prelude.{◌≡◌};
ghost use Rattle.std.specs.Str.{bytes_eq};
ghost use Rattle.httparse.specs.Grammar.{RequestHead};
ghost use Rattle.http_cut.specs.Looks.{ShowsRequest};
ghost use Rattle.http_desk.specs.Refusals.{asked_of, method_name, wants_length};
ghost use Rattle.http_cut.specs.Routes.{route_of};

use crate::refusal::Refused;
use http_cut::{Method, Request, RouteMatch, Routes};

/// The route of a request with its parameters, or the first of the tests before the machine that it fails.
pub(crate) fn asked<'r, 'b>(
    routes: &'r Routes,
    bytes: &'b [u8],
    request: &Request,
) -> Result<RouteMatch<'r, 'b>, Refused>
    requires { (head : RequestHead) × ShowsRequest bytes.now request.now head }
    ensures { (head : RequestHead) → ShowsRequest bytes.now request.now head
        → result ≡ asked_of head (route_of head.target) }
{
    let Some(found) = routes.find(request.target.of(bytes)) else {
        return Err(Refused::NoRoute);
    };
    let method = found.route().method();
    if !is_method(request.method.of(bytes), method) {
        return Err(Refused::OtherMethod);
    }
    if wants_length(method) && !request.has_length {
        return Err(Refused::NoLength);
    }
    Ok(found)
}

/// Whether a request by this method has to say its length.
fn wants_length(method: Method) -> bool
    ensures { result ≡ wants_length method }
{
    match method {
        Method::Get => false,
        Method::Post => true,
    }
}

fn is_method(name: &[u8], method: Method) -> bool
    ensures { result ≡ bytes_eq name.now (method_name method) }
{
    match method {
        Method::Get => name == b"GET".as_slice(),
        Method::Post => name == b"POST".as_slice(),
    }
}
