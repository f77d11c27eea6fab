//! Cases as data: reads files of cases, and tells which are not answered as is wanted.
//!
//! `docs/cases.md` says how a case is written. A program that has cases says by a `Subject` how it answers
//! one, and hands its files to `try_files`.
#![tactic(auto)]

mod answer;
mod case;
mod escapes;
mod fault;
mod judging;
mod reading;
mod trying;

pub use answer::Answer;
pub use case::{Case, Part, USUAL_CUT};
pub use fault::CaseFault;
pub use judging::{Difference, differences};
pub use reading::cases;
pub use trying::{Subject, Tally, try_files};
