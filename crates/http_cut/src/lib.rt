//! Cutting a stream of bytes into requests, and the routes that requests ask for.
//!
//! A clause sees a request as its head, in the words of `httparse`, and the bytes of its body. `specs/Cut.antt` says
//! how a stream is cut, and `specs/Routes.antt` which route a target has.
#![tactic(auto)]

mod digits;
mod fields;
mod front;
mod head_fields;
mod intake;
pub mod laws;
mod lines;
mod route;
mod route_match;
mod routes;
mod step;
mod target;
mod window;

pub use digits::{NUMBER_DIGITS, WRITE_DIGITS, number, positive};
pub use fields::{Found, find, is_named};
pub use head_fields::HeadFields;
pub use httparse::spans::Span;
pub use intake::{Intake, IntakeFault, PIECE, next_step};
pub use route::{ClerkRoute, DeskRoute, LookRoute, Method, NUMBERS, PATTERNS, Route, StewardRoute};
pub use route_match::RouteMatch;
pub use routes::Routes;
pub use step::{BadRest, Request, Step, first_step};
pub use window::Window;
