//! What an answer is about: at a conflict the attributes whose texts differ at the ends of the two runs, and at a fix
//! from which a step dissents what that step would have copied.
//!
//! `choices` and `dissent` tell them of an answer of `fix_engine`. What they are stands in `specs/`, and what holds of
//! them whatever the rules are in `laws`.
#![tactic(auto)]

mod choice;
mod choosing;
mod dissenting;
mod dissents;
pub mod laws;

pub use choice::{Choice, Ending};
pub use choosing::{choices, differs};
pub use dissenting::dissent;
pub use dissents::Dissent;
