//! The runs of a kit from a state: the first run, and whether the order of applications matters, by at most
//! one look into the book for each rule, and one more for each where the second run is made.
//!
//! A clause sees a `Work` as the runs that the last call left and the size that it was made for. What a
//! run is, which one is first, and what a unique fix and a conflict are stands in `fix_model`; what holds
//! of them whatever the rules are stands in `laws`.
#![tactic(auto)]

mod deciding;
mod departing;
mod first_run;
mod flags;
pub mod laws;
mod leads;
mod looks;
mod runs;
mod search;
mod second_run;
mod verdict;
mod waking;
mod work;

pub use deciding::{decide, judge};
pub use first_run::least;
pub use runs::apply;
pub use verdict::Verdict;
pub use work::Work;
