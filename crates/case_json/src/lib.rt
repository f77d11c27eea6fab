//! The case of `once`, as JSON: read of its bytes, and answered by a line.
//!
//! A clause sees a case as it is. `specs/Cases.antt` says which JSON texts are a case, and `specs/Answer.antt` what is
//! answered to one. `specs/Pointers.antt` says which part keeps a JSON text from being a case.
#![tactic(auto)]

mod answer;
mod attributes;
mod case;
mod kits;
mod masters;
mod pointers;
mod read;
mod records;
mod rules;

pub use answer::case_text;
pub use case::Case;
pub use pointers::pointer_of;
pub use read::{CaseFault, case_of};
