//! Dumps: all rows of the tables as lines of JSON, a line a row.
//!
//! `specs/Dumps.antt` says what the text of a dump is (`docs/formats.md`, *Dumps*).
#![tactic(auto)]

mod dumping;
mod rows;
mod writing;

pub use dumping::dump_text;
