//! SQLite keeps the desk's tables, and tells them.
//!
//! A clause sees of a keeper its connection, how long the lists of its tables are, where it knows, how often it was
//! called and how often it has failed. `specs/Telling.antt` says which tables a connection tells.
#![tactic(auto)]

mod committing;
mod connected;
mod counts;
mod fault;
mod files;
mod holding;
mod loading;
mod open;
mod renewing;
mod tables;

pub use connected::ConnectionKeeper;
pub use files::{FileKeeper, SqlKeeper};
pub use open::{OnceLoaded, OpenTables};
pub use tables::{FromTheStart, NeverUnclean, SqlTables};
