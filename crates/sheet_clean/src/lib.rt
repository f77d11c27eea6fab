//! What a row of a sheet comes to by editing rules, and the lines that it gives: one in the clean sheet, and those of
//! three sheets that say what was changed, what conflicts and what dissents.
//!
//! `specs/Row.antt` says how a row is decided, `specs/Decision.antt` what is decided of it, `specs/Fields.antt` which
//! lines it gives, and `specs/Sheets.antt` what the sheets of rows are. A clause sees a row as its cells, as bytes.
#![tactic(auto)]

mod bytes;
mod changes;
mod clean_row;
mod conflicts;
mod decided;
mod dissents;
mod drafts;
mod fault;
mod fields;
mod header;
mod headings;
mod layout;
mod line;
mod row;
mod row_cleaner;
mod setting;
mod sheet_row;
mod steps;
mod summary;
mod writing;

pub use decided::write_decided;
pub use drafts::{Drafts, SheetTexts};
pub use fault::SheetFault;
pub use fields::fields_of;
pub use header::begins_with_mark;
pub use headings::heads;
pub use layout::{Layout, LayoutFault, layout_of};
pub use row::row_fault;
pub use setting::Setting;
pub use summary::Summary;
