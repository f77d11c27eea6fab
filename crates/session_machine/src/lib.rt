//! The desk: valid tables in memory, over which requests are answered by the session machine and settled with a keeper.
//!
//! A clause sees a `Desk` as the rows of its tables and the shelf of its books (`specs/Seats.antt`). `machine_core`
//! says what a request comes to; `specs/Booked.antt` says what stands on the shelf then.
#![tactic(auto)]

mod clerk;
mod desk;
mod desk_look;
mod steward;

pub use desk::Desk;
