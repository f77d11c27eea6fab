//! A book over a kit with an index of its masters, so that a look goes through few rows.
//!
//! A clause sees a book as its kit. `specs/RowMap.antt` says what a map of a master holds, and `specs/Index.antt` that
//! each rule has its map; `specs/Sorted.antt` says what the entries of a sorted index are, and `specs/Fronts.antt`
//! which numbers stand beside them.
#![tactic(auto)]

mod earliest;
mod entries;
mod equal_range;
mod error;
mod front;
mod index;
mod looks;
mod map_book;
mod part;
mod row_map;
mod search;
mod shelf;
mod sorted_book;
mod sorting;
mod triples;
mod waits;

pub use error::BuildFault;
pub use map_book::MapBook;
pub use shelf::{MAX_HELD, Shelf, Shelved};
pub use sorted_book::SortedBook;
