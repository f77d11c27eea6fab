//! A session carried to another edition: what it keeps by the words of its attributes, and how it is shown otherwise
//! then.
//!
//! `moved` gives the texts and flags of the session over the other attributes, and `changed` the cells of two views
//! that differ. Which these are stands in `specs/`, and what holds of them in `laws`.
#![tactic(auto)]

mod changes;
pub mod laws;
mod moving;
mod session;

pub use changes::changed;
pub use moving::moved;
pub use session::Moved;
