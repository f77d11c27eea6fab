//! A port that is listened at without waiting, and a wait for whatever comes first. Nothing is told in clauses of what
//! comes.
use crate::held::would_wait;
use mio::unix::SourceFd;
use mio::{Events, Interest, Poll, Token};
use std::io;
use std::net::{Ipv4Addr, OpenListener, OpenStream, TcpListener, TcpStream};
use std::os::fd::{AsRawFd, RawFd};
use std::time::Duration;

/// How many events a wait tells at most. More are told by the next.
const EVENTS: usize = 64;

/// A port of 127.0.0.1 that is listened at, and what its sockets wait with.
#[derive(Drop)]
pub(crate) struct Watch {
    listener: TcpListener,
    poll: Poll,
    events: Events,
}

impl Watch {
    /// Listens at the port with this number.
    pub(crate) fn bind(rt: &HostRuntime, port: u16) -> io::Result<Watch> {
        let listener = TcpListener::bind(rt, (Ipv4Addr::LOCALHOST, port))?;
        listener.set_nonblocking(true)?;
        let poll = Poll::new(rt)?;
        let events = Events::with_capacity(rt.alloc(), EVENTS)?;
        let watch = Watch {
            listener,
            poll,
            events,
        };
        watch.add(watch.listener.as_raw_fd(), Interest::READABLE)?;
        Ok(watch)
    }

    /// The next peer that has connected, over a socket that doesn't wait. None where no other has.
    pub(crate) fn next_peer(&self) -> io::Result<Option<TcpStream>> {
        match self.listener.accept() {
            Ok((stream, _)) => {
                stream.set_nonblocking(true)?;
                self.add(stream.as_raw_fd(), Interest::READABLE | Interest::WRITABLE)?;
                Ok(Some(stream))
            }
            Err(error) if would_wait(&error) => Ok(None),
            Err(error) => Err(error),
        }
    }

    /// Waits until a peer connects, sends, takes or closes, or until so long has passed.
    pub(crate) fn wait(&mut self, most: Option<Duration>) -> io::Result<()> {
        self.poll.poll(&mut self.events, most)
    }

    /// Has each wait tell of this socket, until it is closed.
    fn add(&self, socket: RawFd, interest: Interest) -> io::Result<()> {
        self.poll
            .registry()
            .register(&mut SourceFd(&socket), Token(0), interest)
    }
}
