//! Calls of `serve` over doors with peers.
ghost use Rattle.std.specs.Prelude.{◌≡◌};

use crate::door::PeerDoor;
use crate::peers::{Peers, count_of};
use desk_base::{List, MemSink};
use desk_cases::{Answer, Case};
use desk_trials::{fresh, words_of};
use fixdesk_run::serve;
use keeper_core::MemKeeper;
use session_machine::Desk;
use std::alloc::Global;
use std::test::Fail;

/// The first of a hundred ports that are tried, since another program may have one.
const FIRST_PORT: u16 = 18_631;

/// How many bytes the output has room for.
const ROOM: usize = 1_000;

/// The status that `serve` answers where the port is not bound, among others.
const DOOR_FAILED: u8 = 9;

/// What a call left: its status, the output and the peers.
#[derive(Drop)]
struct Served {
    status: u8,
    out: MemSink,
    peers: Peers,
}

/// The status of `serve` and what it said, over the first port that is free, and what each peer was sent.
pub fn told(rt: &HostRuntime, case: &Case, answer: &mut Answer) -> Result<(), Fail> {
    for port in FIRST_PORT..FIRST_PORT + 100 {
        let Served { status, out, peers } = serve_at(answer.alloc(), rt, case, port)?;
        if status != DOOR_FAILED {
            return add_served(status, out.bytes(), peers, answer);
        }
    }
    Err(Fail::new("the door failed at each port"))
}

/// Serves as many links as a case has peers, over a new desk.
fn serve_at(alloc: Global, rt: &HostRuntime, case: &Case, port: u16) -> Result<Served, Fail> {
    let count = count_of(case);
    let words = format!(in alloc; "{port} {count}")?;
    let words = words_of(alloc, words.as_bytes())?;
    serve_with(alloc, rt, case, words.as_slice())
}

/// Serves with these words.
fn serve_with(
    alloc: Global,
    rt: &HostRuntime,
    case: &Case,
    words: &[String],
) -> Result<Served, Fail> {
    let mut keeper = fresh(alloc)?;
    serve_over(alloc, rt, case, words, &mut keeper)
}

/// Serves over this keeper.
fn serve_over(
    alloc: Global,
    rt: &HostRuntime,
    case: &Case,
    words: &[String],
    keeper: &mut MemKeeper,
) -> Result<Served, Fail> {
    let mut door = PeerDoor::new(rt, case);
    let mut out = MemSink::new(alloc, ROOM, ROOM, List::new(alloc))?;
    let status = serve::<Desk, _, _, _>(alloc, words, keeper, &mut door, &mut out);
    let peers = door.into_peers();
    Ok(Served { status, out, peers })
}

fn add_served(status: u8, said: &[u8], peers: Peers, answer: &mut Answer) -> Result<(), Fail> {
    let read = peers.read_all(answer.alloc())?;
    answer.number("status", u64::from(status))?;
    answer.bytes("said", said)?;
    add_read(read.as_slice(), answer)
}

/// Adds what each peer was sent.
fn add_read(read: &[Vec<u8>], answer: &mut Answer) -> Result<(), Fail> {
    for bytes in read {
        answer.bytes("read", bytes.as_slice())?;
    }
    Ok(())
}
