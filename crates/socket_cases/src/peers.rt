//! The peers of a case, each with a connection of its own.
use desk_cases::{Case, Part};
use std::alloc::Global;
use std::io;
use std::io::{Read, Write};
use std::net::{Ipv4Addr, OpenStream, Shutdown, TcpStream};
use std::test::Fail;

/// The name of a part that a peer sends, who shuts the writing side after it.
const SENT: &str = "sent";

/// The name of a part that a peer sends, whose side stays open.
const SENT_OPEN: &str = "sent open";

/// Whether a part is what a peer sends.
pub fn is_sent(part: &Part) -> bool {
    matches!(part.name.as_str(), SENT | SENT_OPEN)
}

/// The peers that have connected to a port, the first one first, each of which has sent what it has to say.
#[derive(Drop)]
pub struct Peers {
    streams: Vec<TcpStream>,
}

impl Peers {
    /// No peers.
    pub fn none(alloc: Global) -> Peers {
        Peers {
            streams: Vec::new(alloc),
        }
    }

    /// A peer for each part of a case that is sent: it connects to this port of 127.0.0.1, sends the bytes and shuts
    /// its writing side, unless that is to stay open.
    pub fn connect(rt: &HostRuntime, case: &Case, port: u16) -> io::Result<Peers> {
        let mut streams = Vec::new(rt.alloc());
        for part in &case.parts {
            if is_sent(part) {
                streams.push(connected(rt, part, port)?)?;
            }
        }
        Ok(Peers { streams })
    }

    /// How many there are.
    pub fn count(&self) -> usize {
        self.streams.len()
    }

    /// What each is sent until its connection ends.
    pub fn read_all(self, alloc: Global) -> Result<Vec<Vec<u8>>, Fail> {
        let mut read = Vec::new(alloc);
        for stream in self.streams {
            read.push(read_to_end(alloc, stream)?)?;
        }
        Ok(read)
    }
}

/// How many peers a case has.
pub fn count_of(case: &Case) -> usize {
    let mut count: usize = 0;
    for part in &case.parts {
        if is_sent(part) {
            count = count.saturating_add(1);
        }
    }
    count
}

/// A connection over which a part was sent, and nothing more is.
fn connected(rt: &HostRuntime, part: &Part, port: u16) -> io::Result<TcpStream> {
    let mut stream = TcpStream::connect(rt, (Ipv4Addr::LOCALHOST, port))?;
    stream.write_all(part.content.as_slice())?;
    if part.name.as_str() == SENT {
        stream.shutdown(Shutdown::Write)?;
    }
    Ok(stream)
}

fn read_to_end(alloc: Global, mut stream: TcpStream) -> Result<Vec<u8>, Fail> {
    let mut bytes = Vec::new(alloc);
    stream.read_to_end(&mut bytes)?;
    Ok(bytes)
}
