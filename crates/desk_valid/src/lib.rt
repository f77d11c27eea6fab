//! What makes the desk's tables valid, and the kit of an edition.
//!
//! `valid` answers whether tables are valid, or names the first damaged row, by table and then by place. `kit_of`
//! binds the rulebook of an edition to its schema, masters and folded attributes. `specs/Rows` says what a valid
//! row of each table is, `specs/Valid.antt` what valid tables are, `specs/Damage.antt` what the first damage is,
//! and `specs/Bindings.antt` what an edition binds to. `docs/tables.md` says the same in words.
#![tactic(auto)]

mod attributes;
mod bare;
mod batches;
mod bound;
mod checking;
mod clerks;
mod damage;
mod editions;
pub mod laws;
mod lists;
mod masters;
mod parts;
mod published;
mod read_tables;
mod reading;
mod records;
mod regions;
mod rulebooks;
mod schemas;
mod sessions;
mod table;
mod versions;

pub use bound::{Bound, kit_of};
pub use checking::valid;
pub use damage::{Bad, Damage};
pub use lists::own_list;
pub use parts::Parts;
pub use published::{master_of, masters_of, rules_of, schema_of};
pub use reading::Rules;
pub use versions::Versioned;
