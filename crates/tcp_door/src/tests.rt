//! Connections in one process: the kernel takes them before they are accepted.
ghost use Rattle.std.specs.Prelude.{◌≡◌};

use crate::door::TcpDoor;
use crate::test_links::{Asked, answer_next, bind_some};
use std::io;
use std::io::{Read, Write};
use std::net::{Ipv4Addr, OpenStream, Shutdown, TcpStream};
use std::test::Fail;

/// The first of a hundred ports that are tried.
const FIRST_PORT: u16 = 18_431;

/// What the link of a peer gave that wrote, and what the peer got by two reads.
#[derive(Clone, Copy, Debug, PartialEq, Eq)]
struct Told {
    asked: Asked,
    answer: [u8; 8],
    counts: [usize; 2],
}

/// A peer connects and writes. Its link is accepted, read, written to and closed, and the peer reads to the end. None
/// where no port was free, or the connection was not accepted.
fn one_connection(rt: &HostRuntime, door: &mut TcpDoor<'_>) -> io::Result<Option<Told>>
    requires { door.old.live ≡ 0 }
{
    let Some(port) = bind_some(door, FIRST_PORT) else {
        return Ok(None);
    };
    let mut peer = TcpStream::connect(rt, (Ipv4Addr::LOCALHOST, port))?;
    peer.write_all(b"hello")?;
    peer.shutdown(Shutdown::Write)?;
    let Some(asked) = answer_next(door, b"welcome") else {
        return Ok(None);
    };
    let mut answer = [0u8; 8];
    let first = peer.read(&mut answer)?;
    let second = peer.read(&mut [0u8; 8])?;
    Ok(Some(Told {
        asked,
        answer,
        counts: [first, second],
    }))
}

/// What a peer writes is read, and what is answered it gets whole, and then the end.
#[test]
fn a_connection_is_read_and_answered(rt: HostRuntime) -> Result<(), Fail> {
    let mut door = TcpDoor::new(&rt);
    let told = one_connection(&rt, &mut door);
    drop(door);
    let wanted = Told {
        asked: Asked {
            bytes: *b"hello\0\0\0",
            first: Ok(5),
            second: Ok(0),
            is_answered: true,
        },
        answer: *b"welcome\0",
        counts: [7, 0],
    };
    assert_eq!(rt; told?, Some(wanted));
    Ok(())
}

/// At another address of this machine the port is not open.
#[test]
fn the_door_is_on_one_address(rt: HostRuntime) -> Result<(), Fail> {
    let mut door = TcpDoor::new(&rt);
    let Some(port) = bind_some(&mut door, FIRST_PORT) else {
        return Err(Fail::new("no port was free"));
    };
    let other = TcpStream::connect(&rt, (Ipv4Addr::new(127, 0, 0, 2), port));
    assert!(rt; other.is_err());
    let own = TcpStream::connect(&rt, (Ipv4Addr::LOCALHOST, port));
    assert!(rt; own.is_ok());
    Ok(())
}
