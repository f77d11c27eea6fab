//! The two ends of a link to a peer. A clause sees the count of faults of each, and the time that its peer has.
ghost use Rattle.std.specs.Prelude.{◌≡◌, None};
ghost use Rattle.tcp_door.specs.Tcp.{KeepsEnd, fresh_end};

use crate::deadline::LAST_WAIT;
use crate::link_end::LinkEnd;
use desk_base::{Failed, Sink, Source};
use std::marker::Model;
use std::net::TcpStream;

/// How many bytes after its request are taken from a peer at most.
const MOST: usize = 16_777_216;

/// How many of them a read asks for.
pub(crate) const PIECE: usize = 8_192;

/// What a peer sends. An error of the socket is a fault, and so is a peer that takes too long.
#[derive(Drop)]
pub struct TcpSource<'r> {
    end: LinkEnd<'r>,
}

impl<'r> Model for TcpSource<'r> {
    ghost use Rattle.tcp_door.specs.Tcp.{TcpEnd};

    ghost Value = { TcpEnd };

    ghost view = { λ s. s.end };
}

impl<'r> TcpSource<'r> {
    /// The source over this socket.
    pub(crate) fn new(rt: &'r HostRuntime, stream: TcpStream) -> TcpSource<'r>
        ensures { result ≡ fresh_end }
    {
        TcpSource {
            end: LinkEnd::new(rt, stream),
        }
    }

    /// Whether a read has failed, so that the peer is not waited for any more.
    pub(crate) fn is_lost(&self) -> bool {
        self.end.is_lost()
    }

    /// Takes what the peer still sends, until it closes its side, it fails, the time is over or 16,777,216 bytes were
    /// taken: a socket that is closed with bytes unread takes back what was written to it.
    pub(crate) fn drain(mut self) {
        self.end.wait_anew(LAST_WAIT);
        let mut piece = [0u8; PIECE];
        let mut taken: usize = 0;
        'pieces: while taken < MOST {
            match self.end.read_in_time(&mut piece) {
                Ok(count) if count > 0 => taken += count,
                _ => return,
            }
        }
    }
}

impl<'r> Source for TcpSource<'r> {
    ghost left = { λ _. None };

    ghost read_faults = { λ s. s.faults };

    ghost is_steady = { λ _. ⊥ };

    // The count rises exactly with a fault, and the peer gets no more time.
    ghost reads = { λ before after _ result. KeepsEnd before after result };

    fn read(&mut self, buf: &mut [u8]) -> Result<usize, Failed> {
        match self.end.read_in_time(buf) {
            Ok(count) => Ok(count),
            Err(_) => Err(self.end.lose()),
        }
    }
}

/// What is sent to a peer. An error of the socket is a fault, and so is a peer that takes too long, and a write that
/// takes nothing.
#[derive(Drop)]
pub struct TcpSink<'r> {
    end: LinkEnd<'r>,
}

impl<'r> Model for TcpSink<'r> {
    ghost use Rattle.tcp_door.specs.Tcp.{TcpEnd};

    ghost Value = { TcpEnd };

    ghost view = { λ s. s.end };
}

impl<'r> TcpSink<'r> {
    /// The sink over this socket.
    pub(crate) fn new(rt: &'r HostRuntime, stream: TcpStream) -> TcpSink<'r>
        ensures { result ≡ fresh_end }
    {
        TcpSink {
            end: LinkEnd::new(rt, stream),
        }
    }

    /// Whether a write has failed, so that the peer is not waited for any more.
    pub(crate) fn is_lost(&self) -> bool {
        self.end.is_lost()
    }

    /// Tells the peer that nothing more is sent.
    pub(crate) fn finish(self) {
        self.end.shut();
    }
}

impl<'r> Sink for TcpSink<'r> {
    ghost written = { λ _. None };

    ghost write_faults = { λ s. s.faults };

    ghost takes = { λ _ _. ⊥ };

    // The count rises exactly with a fault, and the peer gets no more time.
    ghost writes = { λ before after _ result. KeepsEnd before after result };

    fn write(&mut self, piece: &[u8]) -> Result<usize, Failed> {
        match self.end.write_in_time(piece) {
            Ok(count) if count > 0 => Ok(count),
            _ => Err(self.end.lose()),
        }
    }
}
