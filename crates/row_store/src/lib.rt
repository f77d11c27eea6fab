//! The desk's one SQL table as lines: found, made, put and read over any store.
//!
//! A clause sees of a connection the database that it holds, where its store is clean and it is open
//! (`specs/Calls.antt`), and of that database which lines stand in its table (`specs/Stored.antt`).
#![tactic(auto)]

mod footing;
mod looking;
mod making;
mod opening;
mod putting;
mod reading;
mod rest;
mod vacancy;

pub use footing::{Footing, footing_of};
pub use making::make_table;
pub use opening::{OpenFault, Opening, close, open};
pub use putting::put_rows;
pub use reading::all_rows;
