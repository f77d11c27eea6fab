//! The routes of targets.
use desk_cases::{Answer, Case};
use http_cut::{Method, Route, RouteMatch, Routes};
use std::alloc::AllocError;
use std::test::Fail;

/// The names that parameters have.
const NAMES: [&str; 12] = [
    "clerk", "n", "name", "schema", "edition", "master", "version", "session", "from", "row",
    "region", "rule",
];

/// The route of a target, its method, the limit of its body, and its parameters; or `none`.
pub fn told(routes: &Routes, case: &Case, answer: &mut Answer) -> Result<(), Fail> {
    match routes.find(case.bytes("target")?) {
        Some(found) => add_route(&found, answer),
        None => answer.text("wanted", "none"),
    }
}

fn add_route(found: &RouteMatch<'_, '_>, answer: &mut Answer) -> Result<(), Fail> {
    let mut line = String::new(answer.alloc());
    tell(&mut line, found)?;
    answer.text("wanted", line.as_str())
}

fn tell(line: &mut String, found: &RouteMatch<'_, '_>) -> Result<(), AllocError> {
    let route = found.route();
    let method = match route.method() {
        Method::Get => "GET",
        Method::Post => "POST",
    };
    let limit = route.body_limit();
    match route {
        Route::Steward(asked) => write!(line, "{asked:?}")?,
        Route::Clerk(asked) => write!(line, "{asked:?}")?,
        Route::Look(asked) => write!(line, "{asked:?}")?,
        Route::Desk(asked) => write!(line, "{asked:?}")?,
    }
    write!(line, " {method} {limit}")?;
    for name in NAMES {
        if let Some(text) = found.text(name) {
            write!(line, " {name}={text}")?;
        }
    }
    Ok(())
}
