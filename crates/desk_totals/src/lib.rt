//! Valid tables with the numbers that limits speak of.
//!
//! A clause sees a `Totalled` as the rows of its tables. What is counted of each clerk, and the cells of all masters,
//! stand beside the tables and follow each change, so that no request counts a clerk's rows or reads the masters anew.
//! `specs/Totals.antt` says what is counted. `settle` makes changes in a keeper and in the tables, or in neither.
#![tactic(auto)]

mod cells;
mod counting;
mod settling;
mod texts;
mod totalled;
mod totals;

pub use totalled::Totalled;
