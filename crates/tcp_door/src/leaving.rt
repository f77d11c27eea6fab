//! A peer whose link was closed, and which has not taken its response or closed its side. A clause sees the times that
//! it has for both.
ghost use Rattle.std.specs.Prelude.{◌≡◌, None};
ghost use Rattle.tcp_door.specs.Turns.{KeepsTimes};

use crate::deadline::{Deadline, LAST_WAIT, WAIT};
use crate::ends::PIECE;
use crate::held::{READS, would_wait};
use std::io;
use std::io::{ErrorKind, Read, Write};
use std::marker::Model;
use std::net::{Shutdown, TcpStream};
use std::time::Instant;

/// A peer over a socket that doesn't wait, with what is to be sent to it.
#[derive(Drop)]
pub(crate) struct LeavingPeer {
    stream: TcpStream,
    unsent: Vec<u8>,
    sent: usize,
    is_shut: bool,
    taking: Deadline,
    closing: Deadline,
}

impl Model for LeavingPeer {
    ghost use Rattle.std.specs.Prelude.{◌≤◌, length};
    ghost use Rattle.tcp_door.specs.Turns.{LeavingSeen};

    ghost Value = { LeavingSeen };

    ghost view = { λ p. record { taking = p.taking; closing = p.closing } };

    ghost invariant = { λ p. p.sent ≤ length p.unsent.items };
}

impl LeavingPeer {
    /// A peer to which these bytes are still to be sent: it has ten seconds to take them, and two to close its side.
    pub(crate) fn new(stream: TcpStream, unsent: Vec<u8>) -> LeavingPeer
        ensures { result ≡ record {
          taking = record { seconds = 10; until = None };
          closing = record { seconds = 2; until = None };
        } }
    {
        LeavingPeer {
            stream,
            unsent,
            sent: 0,
            is_shut: false,
            taking: Deadline::after(WAIT),
            closing: Deadline::after(LAST_WAIT),
        }
    }

    /// Sends what the peer takes, and drops what it still sends, without waiting: a socket that is closed with bytes
    /// unread takes back what was written to it. Says whether the peer is to be waited for.
    pub(crate) fn takes_turn(&mut self, now: Instant) -> bool
        ensures { KeepsTimes self.old self.new }
    {
        if !self.is_shut {
            if self.send_on().is_err() {
                return false;
            }
            if self.sent < self.unsent.len() {
                return self.taking.left(now).is_some();
            }
            self.is_shut = self.stream.shutdown(Shutdown::Write).is_ok();
        }
        self.is_shut && self.drop_on() && self.closing.left(now).is_some()
    }

    /// Sends until all is sent or the peer takes nothing more.
    fn send_on(&mut self) -> io::Result<()>
        ensures { self.new ≡ self.old }
    {
        'writes: while self.sent < self.unsent.len() {
            match self.stream.write(&self.unsent[self.sent..]) {
                Ok(0) => return Err(io::Error::from(ErrorKind::WriteZero)),
                Ok(count) => self.sent += count,
                Err(error) if would_wait(&error) => return Ok(()),
                Err(error) => return Err(error),
            }
        }
        Ok(())
    }

    /// Reads until nothing more has come, and says whether more may come.
    fn drop_on(&mut self) -> bool
        ensures { self.new ≡ self.old }
    {
        let mut piece = [0u8; PIECE];
        'pieces: for _ in 0..READS {
            match self.stream.read(&mut piece) {
                Ok(0) => return false,
                Ok(_) => {}
                Err(error) => return would_wait(&error),
            }
        }
        true
    }
}
