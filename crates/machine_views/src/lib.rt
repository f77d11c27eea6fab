//! What the rules make of sessions, and the replies that come of it: of writes, of their repeats, and of looks.
#![tactic(auto)]

mod answers;
mod batches;
mod counting;
mod kept;
mod looks;
mod made;
mod views;

pub use kept::{deed_reply, kept_reply};
pub use looks::{
    body_of, catalogue, contradictions_shown, derived_sheet, desk_report, edition_shown,
    look_reply, region_shown, row_shown,
};
pub use made::{kept_made, region_made};
pub use views::view_of;
