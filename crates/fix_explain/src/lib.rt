//! Why an attribute has the value that a rule gave it.
//!
//! `reason` gives the steps of a run without which it would not have fixed the attribute, and `uses` the confirmed
//! attributes that these steps read. What a reason is stands in `specs/`, of all sub-lists of the run; what holds of
//! reasons and of their uses whatever the rules are stands in `laws`.
#![tactic(auto)]

pub mod laws;
mod reading;
mod reasons;

pub use reading::uses;
pub use reasons::reason;
