//! The two ends of a link to a peer that was read in turns. Neither waits for its peer. A clause sees the bytes that
//! the source has left, what comes after them, and the count of faults of each.
ghost use Rattle.std.specs.Prelude.{◌≡◌, None, Some};
ghost use Rattle.std.specs.Io.{WritesAtMost};
ghost use Rattle.desk_base.specs.Faults.{CountsFaults};
ghost use Rattle.tcp_door.specs.Turns.{ReadsGiven};
ghost use Rattle.tcp_door.specs.declared.held.Side.{Side};

use crate::end_faults::EndFaults;
use crate::held::{Side, would_wait};
use crate::leaving::LeavingPeer;
use desk_base::{Failed, Sink, Source};
use std::alloc::Global;
use std::io;
use std::io::{Cursor, Read, Write};
use std::marker::Model;
use std::net::TcpStream;

/// What has come of a peer. It ends where the peer has closed its side. Where it has not, a read that finds nothing
/// more is a fault.
#[derive(Drop)]
pub struct TurnSource {
    bytes: Cursor<Vec<u8>>,
    side: Side,
    faults: EndFaults,
}

impl Model for TurnSource {
    ghost use Rattle.std.specs.Prelude.{drop};
    ghost use Rattle.std.specs.Io.Cursor.{cursor_inner, cursor_position};
    ghost use Rattle.tcp_door.specs.Turns.{GivenSeen};

    ghost Value = { GivenSeen };

    ghost view = { λ s. record {
      left = drop (cursor_position s.bytes) (cursor_inner s.bytes).items;
      side = s.side;
      faults = s.faults;
    } };
}

impl TurnSource {
    /// The source that gives these bytes, after which this may come.
    pub(crate) fn new(bytes: Vec<u8>, side: Side) -> TurnSource
        ensures { result ≡ record { left = bytes.items; side = side; faults = 0 } }
    {
        TurnSource {
            bytes: Cursor::new(bytes),
            side,
            faults: EndFaults::none(),
        }
    }

    /// Whether a read has failed, so that the peer is not waited for any more.
    pub(crate) fn is_lost(&self) -> bool {
        self.faults.is_lost()
    }
}

impl Source for TurnSource {
    ghost left = { λ s. Some s.left };

    ghost read_faults = { λ s. s.faults };

    ghost is_steady = { λ s. s.side ≡ Side.Closed };

    // The count rises exactly with a fault, and the end is told only of a peer that has closed its side.
    ghost reads = { λ before after _ result. ReadsGiven before after result };

    fn read(&mut self, buf: &mut [u8]) -> Result<usize, Failed> {
        match self.bytes.read(buf) {
            Ok(count) if count > 0 || self.side == Side::Closed => Ok(count),
            _ => Err(self.faults.lose()),
        }
    }
}

/// What is sent to a peer. What its socket doesn't take at once is kept, and sent after the link is closed. An error of
/// the socket is a fault, and so is want of memory, and a write that takes nothing.
#[derive(Drop)]
pub struct TurnSink {
    stream: TcpStream,
    unsent: Vec<u8>,
    faults: EndFaults,
}

impl Model for TurnSink {
    ghost use Rattle.std.specs.Prelude.{ℕ};

    ghost Value = { ℕ };

    ghost view = { λ s. s.faults };
}

impl TurnSink {
    /// The sink over a socket that doesn't wait.
    pub(crate) fn new(alloc: Global, stream: TcpStream) -> TurnSink
        ensures { result ≡ 0 }
    {
        TurnSink {
            stream,
            unsent: Vec::new(alloc),
            faults: EndFaults::none(),
        }
    }

    /// Whether a write has failed, so that the peer is not waited for any more.
    pub(crate) fn is_lost(&self) -> bool {
        self.faults.is_lost()
    }

    /// The peer, with what is still to be sent to it.
    pub(crate) fn into_leaving(self) -> LeavingPeer {
        let TurnSink {
            stream,
            unsent,
            faults: _,
        } = self;
        LeavingPeer::new(stream, unsent)
    }

    /// Sends what the socket takes at once. Where it takes nothing now, or bytes wait already, the whole piece waits.
    fn take(&mut self, piece: &[u8]) -> io::Result<usize>
        ensures within { WritesAtMost result piece.now }
        ensures faults { self.new ≡ self.old }
    {
        if self.unsent.is_empty() {
            match self.stream.write(piece) {
                Err(error) if would_wait(&error) => {}
                sent => return sent,
            }
        }
        self.unsent.extend_from_slice(piece)?;
        Ok(piece.len())
    }
}

impl Sink for TurnSink {
    ghost written = { λ _. None };

    ghost write_faults = { λ s. s };

    ghost takes = { λ _ _. ⊥ };

    // The count rises exactly with a fault.
    ghost writes = { λ before after _ result. CountsFaults before after result };

    fn write(&mut self, piece: &[u8]) -> Result<usize, Failed> {
        match self.take(piece) {
            Ok(count) if count > 0 => Ok(count),
            _ => Err(self.faults.lose()),
        }
    }
}
