//! Peers of a door that reads them in turns, in one process: the kernel takes them before they are accepted.
ghost use Rattle.std.specs.Prelude.{◌≡◌, ⊤};

use crate::ready_test::ReadyTest;
use crate::test_links::{Asked, answer_next, bind_some};
use crate::turn_door::TurnDoor;
use desk_base::Failed;
use std::io;
use std::io::Write;
use std::net::{Ipv4Addr, OpenStream, Shutdown, TcpStream};
use std::test::Fail;
use std::time::{Duration, Instant};

/// The first of a hundred ports that are tried.
const FIRST_PORT: u16 = 18_531;

/// Bytes are ready with their first full stop.
#[derive(Drop)]
struct Sentence;

impl ReadyTest for Sentence {
    ghost tells = { λ _ _. ⊤ };

    fn is_ready(&self, bytes: &[u8]) -> bool {
        bytes.contains(&b'.')
    }
}

/// What the source of a link gives whose peer sent `now.` and may send more.
const NOW: Asked = Asked {
    bytes: *b"now.\0\0\0\0",
    first: Ok(4),
    second: Err(Failed),
    is_answered: true,
};

/// So many peers that have connected and say nothing.
fn silent_peers(rt: &HostRuntime, port: u16, count: u32) -> io::Result<Vec<TcpStream>> {
    let mut peers = Vec::new(rt.alloc());
    for _ in 0..count {
        peers.push(TcpStream::connect(rt, (Ipv4Addr::LOCALHOST, port))?)?;
    }
    Ok(peers)
}

/// A peer that has connected and sent this.
fn peer_that_sent(rt: &HostRuntime, port: u16, bytes: &[u8]) -> io::Result<TcpStream> {
    let mut peer = TcpStream::connect(rt, (Ipv4Addr::LOCALHOST, port))?;
    peer.write_all(bytes)?;
    Ok(peer)
}

/// What half a sentence, and a whole one after it, lead to: the links as they came.
fn two_that_ask(
    rt: &HostRuntime,
    door: &mut TurnDoor<'_, Sentence>,
) -> io::Result<[Option<Asked>; 2]>
    requires { door.old.live ≡ 0 }
{
    let Some(port) = bind_some(door, FIRST_PORT) else {
        return Ok([None, None]);
    };
    let mut slow = peer_that_sent(rt, port, b"at")?;
    let quick = peer_that_sent(rt, port, b"now.")?;
    let Some(first) = answer_next(door, b"yes") else {
        return Ok([None, None]);
    };
    slow.write_all(b" last.")?;
    let second = answer_next(door, b"yes");
    drop((slow, quick));
    Ok([Some(first), second])
}

/// A peer that has sent half a sentence doesn't hold up the next. What it sends later stands after the first half. A
/// read that finds nothing more is a fault, since more may come.
#[test]
fn the_first_that_is_whole_comes_first(rt: HostRuntime) -> Result<(), Fail> {
    let mut door = TurnDoor::new(&rt, Sentence);
    let begun = Instant::now(&rt)?;
    let links = two_that_ask(&rt, &mut door);
    drop(door);
    let last = Asked {
        bytes: *b"at last.",
        first: Ok(8),
        second: Err(Failed),
        is_answered: true,
    };
    assert_eq!(rt; links?, [Some(NOW), Some(last)]);
    assert!(rt; begun.elapsed(&rt)? < Duration::from_secs(5));
    Ok(())
}

/// What 64 silent peers lead to, with one that asks, one that closes its side and two silent ones after them.
fn beside_silent_ones(
    rt: &HostRuntime,
    door: &mut TurnDoor<'_, Sentence>,
) -> io::Result<[Option<Asked>; 3]>
    requires { door.old.live ≡ 0 }
{
    let Some(port) = bind_some(door, FIRST_PORT) else {
        return Ok([None, None, None]);
    };
    let silent = silent_peers(rt, port, 64)?;
    let asks = peer_that_sent(rt, port, b"now.")?;
    let Some(first) = answer_next(door, b"yes") else {
        return Ok([None, None, None]);
    };
    let closes = peer_that_sent(rt, port, b"at")?;
    closes.shutdown(Shutdown::Write)?;
    let Some(second) = answer_next(door, b"yes") else {
        return Ok([Some(first), None, None]);
    };
    let more = silent_peers(rt, port, 2)?;
    let third = answer_next(door, b"yes");
    drop((silent, asks, closes, more));
    Ok([Some(first), Some(second), third])
}

/// Beside 64 silent peers one that asks is answered, and so is one that closes its side early: what it sent is handed
/// out, and then the end. Where more are held than the door holds, the first of the silent ones gives way.
#[test]
fn silent_peers_hold_nobody_up(rt: HostRuntime) -> Result<(), Fail> {
    let mut door = TurnDoor::new(&rt, Sentence);
    let begun = Instant::now(&rt)?;
    let links = beside_silent_ones(&rt, &mut door);
    drop(door);
    let closed = Asked {
        bytes: *b"at\0\0\0\0\0\0",
        first: Ok(2),
        second: Ok(0),
        is_answered: true,
    };
    let gave_way = Asked {
        bytes: [0; 8],
        first: Err(Failed),
        second: Err(Failed),
        is_answered: true,
    };
    assert_eq!(rt; links?, [Some(NOW), Some(closed), Some(gave_way)]);
    assert!(rt; begun.elapsed(&rt)? < Duration::from_secs(5));
    Ok(())
}
