//! The route of a target, with its parameters.
ghost use Rattle.std.specs.Prelude.{◌≡◌, ◌≤◌, All, Some, None, MatchOption};
ghost use Rattle.std.specs.List.{list_all};
ghost use Rattle.matchit.specs.Params.{named};
ghost use Rattle.http_cut.specs.Routes.{has_good_numbers, is_good_as, is_good_part, numbers_of};

use crate::digits::positive;
use crate::route::{NUMBERS, Route};
use matchit::Params;
use std::marker::Model;

/// The route of a target, with its parameters. A clause sees the route, and each name with its text.
#[derive(Drop)]
pub struct RouteMatch<'r, 'p> {
    pub(crate) route: Route,
    pub(crate) params: Params<'r, 'p>,
}

impl<'r, 'p> Model for RouteMatch<'r, 'p> {
    ghost use Rattle.std.specs.Prelude.{ℕ, List};
    ghost use Rattle.matchit.specs.Params.{walk, AllText};
    ghost use Rattle.http_cut.specs.declared.route.Route.{Route};

    ghost Value = { Route × List (List ℕ × List ℕ) };

    ghost view = { λ m. (
      m.route,
      walk m.params.pattern.now m.params.text.now m.params.path.now m.params.names.now 0 0,
    ) };

    ghost invariant = { λ m. AllText
        (walk m.params.pattern.now m.params.text.now m.params.path.now m.params.names.now 0 0) };
}

impl<'r, 'p> RouteMatch<'r, 'p> {
    /// The route.
    pub fn route(&self) -> Route
        ensures { result ≡ self.now.0 }
    {
        self.route
    }

    /// The text of the parameter of this name.
    pub fn text(&self, name: &str) -> Option<&'p str>
        ensures { MatchOption result (named name.now self.now.1 ≡ None)
            (λ text. named name.now self.now.1 ≡ Some text.now) }
    {
        self.params.get(name)
    }

    /// Whether the parameters that are to be numbers are.
    pub(crate) fn has_good_numbers(&self) -> bool
        ensures { result ≡ has_good_numbers self.now.1 }
    {
        'parts: for (name, part) in self.params.iter() {
            if !is_good_part(name, part) {
                return false;
            }
        }
        true
    }
}

/// Whether the part that a parameter of this name took is a number, if it is to be one.
fn is_good_part(name: &str, part: &str) -> bool
    ensures { result ≡ is_good_part (name.now, part.now) }
{
    are_good_as(name, part, &NUMBERS)
}

/// Whether the part is good as each of these numbers.
fn are_good_as(name: &str, part: &str, numbers: &[(&str, usize)]) -> bool
    requires { All (λ number. number.1 ≤ 19) numbers.now }
    ensures { result ≡ list_all (is_good_as (name.now, part.now)) (numbers_of numbers.now) }
{
    'numbers: for number in numbers {
        if !is_good_as(name, part, number) {
            return false;
        }
    }
    true
}

/// Whether the part is a number of at most so many digits, if its parameter has the name of that number.
fn is_good_as(name: &str, part: &str, number: &(&str, usize)) -> bool
    requires { number.now.1 ≤ 19 }
    ensures { result ≡ is_good_as (name.now, part.now) (number.now.0.now, number.now.1) }
{
    number.0 != name || positive(part.as_bytes(), number.1).is_some()
}
