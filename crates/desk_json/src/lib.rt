//! JSON as the desk reads and prints it: the bodies of requests, and replies.
//!
//! `specs/Commands.antt` says which command a route and a body are, `specs/Bodies` what each body reads as or which
//! fault it has first; `specs/Replies.antt`, `Viewed.antt`, `Carried.antt`, `Choices.antt`, `Blocked.antt`,
//! `Published.antt`, `Fits.antt`, `Refusals.antt` and `Faults.antt` how replies and faults are printed. `docs/api.md`
//! says the same to a client. `Show` is what is shown as a JSON value, also in what other crates print.
#![tactic(auto)]

mod blocked;
mod bodies;
mod body;
mod carried;
mod choices;
mod commands;
mod fault;
mod fits;
mod forms;
mod published;
mod refusals;
mod replies;
mod route;
mod shown;
mod viewed;
mod words;

pub use commands::command_of;
pub use fault::JsonFault;
pub use refusals::fault_text;
pub use replies::text_of;
pub use route::Route;
pub use shown::{Show, show_all};
