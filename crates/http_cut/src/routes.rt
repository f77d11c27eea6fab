//! The table of routes, and the route of a target.
ghost use Rattle.std.specs.Prelude.{◌≡◌, IfOk, OnOk};
ghost use Rattle.http_cut.specs.Routes.{match_of, with_good_numbers, route_of};
ghost use Rattle.http_cut.specs.Routes.{patterns_of, route_rows, rows_after, rows_with};

use crate::route::{PATTERNS, Route};
use crate::route_match::RouteMatch;
use desk_base::NoMemory;
use matchit::Router;
use std::alloc::Global;
use std::marker::Model;

/// The table of routes.
#[derive(Drop)]
pub struct Routes {
    router: Router<Route>,
}

impl Model for Routes {
    ghost use Rattle.std.specs.Prelude.{◌≡◌};
    ghost use Rattle.http_cut.specs.Routes.{Rows, route_rows};

    ghost Value = { Rows };

    ghost view = { λ r. r.router };

    ghost invariant = { λ r. r.router ≡ route_rows };
}

impl Routes {
    /// The table of all patterns.
    pub fn new(alloc: Global) -> Result<Routes, NoMemory>
        ensures { IfOk result (λ routes. routes ≡ route_rows) }
    {
        let router = all_routes(alloc)?;
        Ok(Routes { router })
    }

    /// The route of a target, with its parameters. A target that is no text has none.
    pub fn find<'r, 'p>(&'r self, target: &'p [u8]) -> Option<RouteMatch<'r, 'p>>
        ensures { result ≡ route_of target.now }
    {
        match std::str::from_utf8(target) {
            Ok(text) => self.find_text(text),
            Err(_) => None,
        }
    }

    fn find_text<'r, 'p>(&'r self, target: &'p str) -> Option<RouteMatch<'r, 'p>>
        ensures { result ≡ with_good_numbers (match_of target.now) }
    {
        let found = self.look_up(target)?;
        if found.has_good_numbers() {
            Some(found)
        } else {
            None
        }
    }

    fn look_up<'r, 'p>(&'r self, target: &'p str) -> Option<RouteMatch<'r, 'p>>
        ensures { result ≡ match_of target.now }
    {
        match self.router.at(target) {
            Ok(found) => Some(RouteMatch {
                route: *found.value,
                params: found.params,
            }),
            Err(_) => None,
        }
    }
}

fn all_routes(alloc: Global) -> Result<Router<Route>, NoMemory>
    ensures { IfOk result (λ router. router ≡ route_rows) }
{
    let mut router = Router::new(alloc);
    add_all(&mut router, &PATTERNS)?;
    Ok(router)
}

fn add_all(router: &mut Router<Route>, rows: &[(&str, Route)]) -> Result<(), NoMemory>
    ensures { OnOk result (router.new ≡ rows_after (patterns_of rows.now) router.old) }
{
    for (pattern, route) in rows {
        add(router, pattern, *route)?;
    }
    Ok(())
}

fn add(router: &mut Router<Route>, pattern: &str, route: Route) -> Result<(), NoMemory>
    ensures { OnOk result (router.new ≡ rows_with pattern.now route router.old) }
{
    match router.insert(pattern, route) {
        Ok(()) => Ok(()),
        Err(_) => Err(NoMemory),
    }
}
