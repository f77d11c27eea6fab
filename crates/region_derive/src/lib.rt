//! The regions that a master gives: for attributes and as many columns, the rows of the master that promise a certain
//! fix.
//!
//! `derive` lists these rows with their texts. Which rows they are stands in `specs/Derived.antt`, and what holds of
//! them whatever the rules are in `laws`.
#![tactic(auto)]

pub mod laws;
mod listing;
mod seen;

pub use listing::derive;
