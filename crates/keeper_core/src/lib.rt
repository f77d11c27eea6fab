//! What keeps the tables outside of the program: it loads them, and commits changes, all of them or none.
//!
//! A clause sees the tables of a `Keeper`, where the keeper tells them, and how often it has failed.
//! `specs/Keeping.antt` says what a keeper tells. `make_room` and `change_all` make changes in tables that stand
//! in memory: all room is made first, so that nothing can refuse once the first row is changed
//! (`specs/Making.antt`).
#![tactic(auto)]

mod changing;
mod keeper;
mod lists;
mod memory;
mod room;

pub use changing::{change, change_all};
pub use keeper::{KeepFail, Keeper};
pub use memory::MemKeeper;
pub use room::{Fresh, make_room};
