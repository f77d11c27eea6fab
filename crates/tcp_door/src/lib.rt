//! Doors on a TCP port of the loopback address, and the links to their peers: one that waits for each peer in turn, and
//! one that reads many peers in turns and waits for none.
//!
//! A clause sees both doors as their counts and their port (`specs/Tcp.antt`). Of the bytes of a peer of `TcpDoor`
//! nothing is told; what has come of a peer of `TurnDoor` is told once its link is handed out (`specs/Turns.antt`).
#![tactic(auto)]

mod deadline;
mod door;
mod door_state;
mod end_faults;
mod ends;
mod held;
mod leaving;
mod link_end;
mod peers;
mod ready_test;
#[cfg(test)]
mod test_links;
#[cfg(test)]
mod tests;
mod turn_door;
mod turn_ends;
#[cfg(test)]
mod turn_tests;
mod watch;

pub use door::TcpDoor;
pub use ends::{TcpSink, TcpSource};
pub use held::Side;
pub use ready_test::ReadyTest;
pub use turn_door::TurnDoor;
pub use turn_ends::{TurnSink, TurnSource};
