//! The session machine: what it is, the tests that several of its commands make, and the steward's part.
//!
//! `specs/Machine.antt` says what a request comes to, over one file for each command in `specs/Steward`,
//! `specs/Clerk` and `specs/Look`. `specs/Checked.antt` has the form of tests in their order, and
//! `specs/Outcomes.antt` what a part of the machine answers by them.
#![tactic(auto)]

mod answers;
mod attributes;
mod carrying;
mod checking;
mod codes;
mod column;
mod deed;
mod derivation;
mod derived;
mod faults;
mod finding;
mod holding;
mod limits;
mod machine;
mod making;
mod naming;
mod noting;
mod own;
mod saying;
mod sessions;
mod steward;
mod stop;
mod ticket;
mod words;

pub use answers::state_of;
pub use attributes::{another_attributes, attribute_of, attributes_of, typed_cells};
pub use carrying::carry_row;
pub use checking::checked;
pub use column::Column;
pub use deed::Deed;
pub use derivation::Derivation;
pub use derived::{derivation_of, derived_rows};
pub use faults::{read_master, read_rulebook, read_schema};
pub use finding::{named, newest_of, next_version};
pub use holding::{hold, shelved};
pub use limits::within;
pub use machine::{Machine, SettleFail, StartFail, Weighed};
pub use making::Making;
pub use own::Own;
pub use sessions::{active, active_session, session_at, session_of};
pub use steward::{
    clerk_row, derived_region, edition_row, master_row, region_count, region_on, rulebook_row,
    schema_row,
};
pub use stop::Stop;
pub use ticket::{Use, is_numbered, ticketed, use_of};
pub use words::words_of;
