//! Editing rules over master data, the record that is being keyed, and what applying a rule means.
//!
//! A rule copies a cell of a master row into a record where the row agrees with attributes that are
//! already covered, that is confirmed by a clerk or fixed by an earlier step. The types are plain
//! data, which clauses see as it is. `specs/` has the notions, from a pattern that matches a text to
//! a unique fix, and `docs/definitions.md` explains each.
#![tactic(auto)]

mod application;
mod book;
mod comparison;
mod entries;
mod kit;
pub mod laws;
mod lent_book;
mod list_book;
mod names;
mod ordering;
mod pattern;
mod region;
mod rows;
mod rule;
mod sharing;
mod state;
mod waiting;

pub use application::fires;
pub use book::{Book, Hit, covers_left_side, enabled, has_covered_keys, value, value_text};
pub use comparison::{alike, text_order};
pub use kit::Kit;
pub use lent_book::some_row_agrees;
pub use list_book::ListBook;
pub use names::Names;
pub use ordering::compare;
pub use pattern::{Pat, matches};
pub use region::{Region, RowVerdict, row_state};
pub use rows::{Sought, is_usable};
pub use rule::Rule;
pub use sharing::earliest_for;
pub use state::{Cell, State, Step};
pub use waiting::first_waiting;
