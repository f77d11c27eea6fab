//! What requests are answered with besides the tables: the shelf of books, the room in which their rules are run, and
//! what sessions came to.
//!
//! A clause sees a workplace as its parts. `specs/Ready.antt` says when a workplace is ready over tables, which each
//! call that is handed one asks and leaves; `specs/Words.antt` says what words the rules of an edition name attributes
//! by, and `specs/Upshots.antt` what is known of sessions.
#![tactic(auto)]

mod upshots;
mod workplace;

pub use upshots::{Cells, SessionAt, Upshot, Upshots};
pub use workplace::Workplace;
