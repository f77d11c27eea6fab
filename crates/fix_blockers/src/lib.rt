//! What stands in the way of each attribute that the rules left uncovered.
//!
//! `blocked` tells, where nothing fires any more, for each such attribute and each rule whose head it is why the rule
//! gives it no text. What the reasons are stands in `specs/`, and what holds of them whatever the rules are in `laws`.
#![tactic(auto)]

mod blocked_attribute;
mod blocker;
mod blocking;
pub mod laws;
mod listing;

pub use blocked_attribute::{BlockedAttribute, BlockedRule};
pub use blocker::Blocker;
pub use listing::blocked;
