//! Cleans a sheet by editing rules: from any source to any sinks, row by row, with three sheets beside the clean one
//! that say what was changed, what conflicts and what dissents.
//!
//! A clause sees a source as the bytes that it has left, and a sink as those that it holds. `specs/Ends.antt` says what
//! is left of them.
#![tactic(auto)]

mod cleaner;
mod cleaning;
mod end;
mod filter;
mod outputs;
mod stop;

pub use end::End;
pub use filter::clean;
pub use outputs::Outputs;
