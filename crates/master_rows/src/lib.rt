//! Masters, read from CSV sheets and printed as such.
//!
//! A clause sees a `Master` as its columns and the table of its cells, and an `Outline` as the columns and the number
//! of rows. `specs/Sheet.antt` says what a sheet reads as, on the records that `csv` states, and `specs/Master.antt`
//! which masters there are.
#![tactic(auto)]

mod draft;
mod error;
mod fields;
mod header;
pub mod laws;
mod mark;
mod master;
mod outline;
mod print;
mod row;
mod sheet_records;

pub use error::SheetFault;
pub use fields::field_at;
pub use mark::{begins_with_mark, begins_with_two_marks};
pub use master::Master;
pub use outline::Outline;
pub use sheet_records::SheetRecords;
