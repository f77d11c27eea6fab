//! Doors, which hand out links to peers one after another, the link of a program's standard input and output, and a
//! sink that drops what it takes.
//!
//! A clause sees a `Listener` as the `Door` that it tells: the port that it is bound to, how many links it handed out
//! and how many are open, those that wait and those that were closed, and a count of its faults. `specs/Doors.antt`
//! says what the words mean, and `specs/Memory.antt` what a door in memory is.
#![tactic(auto)]

mod door;
mod drop_sink;
mod memory;
mod standard;

pub use door::Listener;
pub use drop_sink::DropSink;
pub use memory::MemDoor;
pub use standard::std_link;
