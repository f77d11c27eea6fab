//! The call of the program `fixdesk_restore`: of a dump it makes the desk whose dump it is.
//!
//! A clause sees a link as the bytes that it has left and holds, and a keeper as the tables that it tells. In reading
//! order: `specs/Ends.antt`, the exit statuses; `specs/Dumped.antt`, whose dump a text is; `specs/Kept.antt`, what
//! becomes of the keeper; `specs/Telling.antt`, what is written; `specs/Restoring.antt`, what a call leaves of all of
//! these by how it ended, and when no fault comes.
#![tactic(auto)]

mod ended;
mod keeping;
mod new_desk;
mod taking;
mod telling;
mod top;

pub use ended::RestoreEnd;
pub use top::restore_desk;
