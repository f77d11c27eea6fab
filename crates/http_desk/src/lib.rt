//! What is answered to requests: the bytes of responses, what is refused before the machine is asked, and the loop that
//! serves a stream.
//!
//! A clause sees a response as its bytes. `specs/Responses.antt` says which they are, `specs/Refusals.antt` when a
//! request is refused before the machine, and with what, `specs/Commands.antt` which command it is else, and
//! `specs/Replies.antt` how the machine's reply is sent. `specs/Answered.antt` says what becomes of one request and of
//! many, and `specs/Streams.antt` what serving a stream leaves.
#![tactic(auto)]

mod answering;
mod asking;
mod commanding;
mod declined;
mod digest;
mod front;
mod guard;
pub mod laws;
mod log;
mod log_line;
mod parameters;
mod refusal;
mod replying;
mod responses;
mod says;
mod serving;
mod status;
mod text;

pub use declined::Declined;
pub use front::{Front, Page};
pub use log::{Log, NoLog};
pub use log_line::LogLine;
pub use parameters::route_in;
pub use refusal::Refused;
pub use responses::response;
pub use serving::{Ended, serve_link, serve_stream};
pub use status::{ContentType, Status};
