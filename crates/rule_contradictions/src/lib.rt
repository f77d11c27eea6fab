//! Where the master data of a rule contradicts itself: usable rows that agree on the columns of the rule's keys and
//! differ in the column that it copies.
//!
//! `contradictions` lists them, a line for each key that has such rows, from what the sorted index of `master_index`
//! keeps. Which rows contradict each other stands in `specs/Contradictions.antt`, over kit and rule alone, and what
//! holds of them whatever the rules are in `laws`.
#![tactic(auto)]

mod contradiction;
pub mod laws;
mod listing;

pub use contradiction::Contradiction;
pub use listing::contradictions;
