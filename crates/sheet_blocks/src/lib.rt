//! The bytes of a sheet as they come from any source, cut into blocks of whole records, so that a sheet of any length
//! is read in the memory of its longest record.
//!
//! A clause sees `Blocks` as the bytes that were read and not taken (`specs/Blocks.antt`). `specs/Sheets.antt` says
//! which records a sheet has, and `specs/Whole.antt` what it means that bytes are whole records.
#![tactic(auto)]

mod blocks;
mod fault;
mod front;
pub mod laws;
mod place;

pub use blocks::Blocks;
pub use fault::BlocksFault;
