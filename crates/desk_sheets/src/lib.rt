//! The sheets that the desk prints: reports, the records of a clerk, the rows that a master gives, and the
//! contradictions of a rule.
//!
//! `specs/Report.antt` says what a report is printed as, `specs/Records.antt` what records are, `specs/Derived.antt`
//! what derived rows are, `specs/Contradictions.antt` what contradictions are.
#![tactic(auto)]

mod contradictions;
mod derived;
mod records;
mod report;
mod writing;

pub use contradictions::contradictions_text;
pub use derived::derived_text;
pub use records::records_text;
pub use report::report_text;
