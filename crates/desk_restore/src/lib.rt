//! What a dump restores: the tables whose dump it is, and the changes that make them over those of a new desk.
//!
//! A clause sees a dump as its bytes. `specs/Ranges.antt` says which rows a program can have, `specs/Changes.antt`
//! which changes put all rows of tables; `specs/Parts.antt` and `specs/Reading.antt` what is read of a dump's lines.
#![tactic(auto)]

mod fault;
mod fitting;
pub mod laws;
mod lines;
mod parts;
mod restoring;
mod rows;

pub use fault::RestoreFault;
pub use restoring::{Restored, restore};
