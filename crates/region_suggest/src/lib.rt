//! Regions checked against the master data, and what a clerk is advised to confirm next.
//!
//! `check` gives the verdict of each row of a region; `suggest` gives the rows that are offered for a record, the
//! attributes that have yet to be confirmed, and how much each confirmation is hoped to gain. A region and the
//! verdict of a row are notions of `fix_model`; what can be hoped for stands in `specs/`, and what holds of both
//! whatever the rules are in `laws`.
#![tactic(auto)]

mod checking;
mod dependencies;
mod fitting;
mod gaining;
pub mod laws;
mod needing;
mod offering;
mod opening;
mod suggesting;
mod suggestion;

pub use checking::check;
pub use fitting::is_region_of;
pub use suggesting::suggest;
pub use suggestion::Suggestion;
