//! The command `once`: the case that stands in an input is answered by one text.
//!
//! `specs/Input.antt` says what is taken of the input, `specs/Once.antt` what is due to it and what is left of the link
//! by each status. Which JSON texts are a case, and what answers one, `case_json` says.
#![tactic(auto)]

mod answering;
mod input;
pub mod laws;
mod reply;
mod status;
mod telling;

pub use answering::{answer_over, once};
pub use input::{InputFault, input_of};
pub use status::Status;
pub use telling::{Said, tell, tell_said};
