//! The stream of requests that the generator makes, as bytes.
//!
//! A clause sees the stream as the bytes of a list of requests. `specs/Made.antt` says which requests these are,
//! `specs/Requests.antt` what the bytes of requests are, and `specs/Draws.antt` which numbers are drawn.
#![tactic(auto)]

mod draws;
mod kind;
mod master;
mod requests;
mod rulebook;
mod schema;
mod sessions;
mod steward;
mod stream;

pub use draws::Draws;
pub use stream::made;
