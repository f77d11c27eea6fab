//! The words of the desk: the rows of its tables and what a change does to them, what a request asks, and what
//! is answered.
//!
//! The rows, requests and replies are plain data, which a clause sees as it is. It sees each table as the list
//! of its rows: `specs/Tables.antt` says what the tables are, `specs/Changes.antt` what a change does to them
//! and which changes fit. `docs/tables.md` explains each table.
#![tactic(auto)]

mod blocked;
mod change;
mod choices;
mod clerk_work;
mod command;
mod contradictions;
mod desk_look;
mod fits;
pub mod laws;
mod limit;
mod look;
mod made;
mod proposal;
mod published;
mod refusal;
mod reply;
mod report;
mod rows;
mod steward_work;
mod tables;
mod view;

pub use blocked::{Blocked, ShownBlocked, ShownBlocker, ShownRule};
pub use change::Change;
pub use choices::{Choices, ShownChoice, ShownDissent, ShownEnd, ShownStep};
pub use clerk_work::{Accept, ClerkWork};
pub use command::{Command, Ticket};
pub use contradictions::{ContradictionLine, ContradictionSheet};
pub use desk_look::{DeskLook, Publication};
pub use fits::Fits;
pub use limit::Which;
pub use look::Look;
pub use made::{Batched, Made};
pub use proposal::Proposal;
pub use published::{Catalogue, EditionSheet, MasterRowSheet, RegionSheet, RuleSummary};
pub use refusal::{Kind, Reader, Refusal};
pub use reply::{Carried, DerivedSheet, Explained, Reply, Suggested};
pub use report::{
    MAX_LISTED, RecordLine, RecordSheet, ReportLine, ReportSheet, SessionLine, SessionPage,
};
pub use rows::act::Act;
pub use rows::batch::BatchRow;
pub use rows::clerk::{ClerkRow, Digest};
pub use rows::edition::EditionRow;
pub use rows::record::RecordRow;
pub use rows::region::RegionRow;
pub use rows::rulebook::RulebookRow;
pub use rows::session::{SessionRow, Stage};
pub use rows::text::TextRow;
pub use steward_work::StewardWork;
pub use tables::Tables;
pub use view::{Outcome, Shown, View, ViewCell};
