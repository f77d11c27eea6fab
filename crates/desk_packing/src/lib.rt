//! The tables as rows of one SQL table: how each row is packed into bytes and read back, and which rows stand for which
//! tables.
//!
//! A clause sees a `PackedRow` as a `Line` (`specs/Lines.antt`) and a `Shape` as the lengths of the tables' lists
//! (`specs/Shapes.antt`). `specs/Formats.antt` and `specs/RowFormats.antt` say how rows are packed, `specs/Stands.antt`
//! which tables lines stand for.
#![tactic(auto)]

mod codes;
mod error;
mod kinds;
pub mod laws;
mod line;
mod lists;
mod numbers;
mod packs;
mod row;
mod rows;
mod shape;
mod texts;
mod unpacking;
mod whole;

pub use error::{PackFault, UnpackFault};
pub use line::PackedRow;
pub use shape::{Packed, Shape};
pub use unpacking::{Unpacked, unpack};
pub use whole::{migrated, pack_empty};
