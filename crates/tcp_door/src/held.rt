//! A peer that was accepted and is not handed out yet. A clause sees what has come of it, whether more may come, and
//! the time that it has.
ghost use Rattle.std.specs.Prelude.{◌≡◌, ◌<◌, ◌≤◌, [], length, None};
ghost use Rattle.tcp_door.specs.Turns.{Gathers, IsJudged};
ghost use Rattle.tcp_door.specs.declared.held.Side.{Side};

use crate::deadline::{Deadline, WAIT};
use crate::ends::PIECE;
use crate::ready_test::ReadyTest;
use crate::turn_ends::{TurnSink, TurnSource};
use desk_base::{Both, MAX_HEAD, MAX_LONG_BODY};
use std::alloc::Global;
use std::io;
use std::io::{ErrorKind, Read};
use std::marker::Model;
use std::net::TcpStream;
use std::time::Instant;

/// What may come of a peer.
#[derive(Clone, Copy, Debug, PartialEq, Eq)]
pub enum Side {
    /// It may send more.
    Open,
    /// It has closed its side.
    Closed,
    /// It is not read any more: a read has failed, its time is over, or it gave way to others.
    Lost,
}

/// How many bytes are gathered of a peer at most: more than the longest request has.
const MOST_GATHERED: usize = MAX_HEAD + MAX_LONG_BODY + PIECE;

/// How many reads a turn has at most, so that it is short.
pub(crate) const READS: usize = 1_024;

/// Whether a call gave nothing, as it would have had to wait.
pub(crate) fn would_wait(error: &io::Error) -> bool {
    matches!(error.kind(), ErrorKind::WouldBlock | ErrorKind::Interrupted)
}

/// A peer over a socket that doesn't wait, with the bytes that have come.
#[derive(Drop)]
pub(crate) struct HeldPeer {
    stream: TcpStream,
    bytes: Vec<u8>,
    side: Side,
    deadline: Deadline,
}

impl Model for HeldPeer {
    ghost use Rattle.tcp_door.specs.Turns.{PeerSeen};

    ghost Value = { PeerSeen };

    ghost view = { λ p. record { bytes = p.bytes.items; side = p.side; time = p.deadline } };
}

impl HeldPeer {
    /// A peer of which nothing has come, over a socket that doesn't wait.
    pub(crate) fn new(alloc: Global, stream: TcpStream) -> HeldPeer
        ensures { result ≡ record {
          bytes = [];
          side = Side.Open;
          time = record { seconds = 10; until = None };
        } }
    {
        HeldPeer {
            stream,
            bytes: Vec::new(alloc),
            side: Side::Open,
            deadline: Deadline::after(WAIT),
        }
    }

    /// Takes what has come by now, without waiting, and says whether anything has. Its time begins with its first turn;
    /// once it is over, nothing more is read.
    #[tactic(auto, using(crate::proofs::Gathering::gathers_then))]
    pub(crate) fn take_turn(&mut self, now: Instant) -> bool
        ensures { Gathers self.old self.new }
    {
        let before = self.bytes.len();
        self.read_on();
        if self.side == Side::Open && self.deadline.left(now).is_none() {
            self.side = Side::Lost;
        }
        self.bytes.len() > before
    }

    /// Reads until nothing more has come.
    #[tactic(auto, using(crate::proofs::Gathering::gathers_then))]
    fn read_on(&mut self)
        ensures { Gathers self.old self.new }
    {
        let mut piece = [0u8; PIECE];
        'reads: for _ in 0..READS {
            if !self.read_once(&mut piece) {
                return;
            }
        }
    }

    /// Reads once, and says whether bytes came.
    fn read_once(&mut self, piece: &mut [u8]) -> bool
        requires { length piece.old ≤ 8192 }
        ensures { Gathers self.old self.new }
    {
        match self.stream.read(piece) {
            Ok(0) => self.side = Side::Closed,
            Ok(count) => return self.keep(&piece[..count]),
            Err(error) => {
                if !would_wait(&error) {
                    self.side = Side::Lost;
                }
            }
        }
        false
    }

    /// Adds bytes that have come, where there is room and memory for them, and says whether they were added.
    fn keep(&mut self, piece: &[u8]) -> bool
        requires { length piece.now ≤ 8192 }
        ensures { Gathers self.old self.new }
    {
        if self.bytes.len() > MOST_GATHERED - piece.len() {
            self.side = Side::Lost;
            return false;
        }
        match self.bytes.extend_from_slice(piece) {
            Ok(()) => true,
            Err(_) => {
                self.side = Side::Lost;
                false
            }
        }
    }

    /// Reads nothing more.
    pub(crate) fn give_way(&mut self)
        ensures { self.new ≡ record self.old { side = Side.Lost } }
    {
        self.side = Side::Lost;
    }

    /// Whether it is to be handed out: more does not come, or what has come is ready.
    pub(crate) fn is_due<T: ReadyTest>(&self, test: &T) -> bool
        ensures { IsJudged T.tells self.now.bytes self.now.side result }
    {
        match self.side {
            Side::Open => test.is_ready(self.bytes.as_slice()),
            Side::Closed | Side::Lost => true,
        }
    }

    /// Its link: what has come is to be read, and nothing was written.
    pub(crate) fn into_link(self) -> Both<TurnSource, TurnSink>
        ensures source { result.source ≡ record { left = self.bytes; side = self.side; faults = 0 } }
        ensures sink { result.sink ≡ 0 }
    {
        let alloc = *self.bytes.allocator();
        let HeldPeer {
            stream,
            bytes,
            side,
            deadline: _,
        } = self;
        let source = TurnSource::new(bytes, side);
        let sink = TurnSink::new(alloc, stream);
        Both { source, sink }
    }
}
