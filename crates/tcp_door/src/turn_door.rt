//! A door on a TCP port of the loopback address that reads its peers in turns. A clause sees its counts and its port.
ghost use Rattle.std.specs.Prelude.{◌≡◌, None};
ghost use Rattle.tcp_door.specs.Tcp.{door_told};

use crate::door_state::DoorState;
use crate::peers::Peers;
use crate::ready_test::ReadyTest;
use crate::turn_ends::{TurnSink, TurnSource};
use desk_base::{Both, Failed};
use desk_links::Listener;
use std::marker::Model;
use std::time::Instant;

/// A door on a port of 127.0.0.1 that holds many peers at once, reads each in turn without waiting for it, and hands
/// out the first whose bytes are ready by a test, that has closed its side, or that is lost.
#[derive(Drop)]
pub struct TurnDoor<'r, T: ReadyTest> {
    rt: &'r HostRuntime,
    peers: Peers<T>,
    state: DoorState<()>,
}

impl<'r, T: ReadyTest> Model for TurnDoor<'r, T> {
    ghost use Rattle.tcp_door.specs.Tcp.{TcpSeen};

    ghost Value = { TcpSeen };

    ghost view = { λ d. d.state };
}

impl<'r, T: ReadyTest> TurnDoor<'r, T> {
    /// A door that is not bound yet, with the test of what its peers send. Nothing is opened.
    pub fn new(rt: &'r HostRuntime, test: T) -> TurnDoor<'r, T>
        ensures { result ≡ record { port = None; accepted = None; live = 0; faults = 0 } }
    {
        TurnDoor {
            rt,
            peers: Peers::new(rt.alloc(), test),
            state: DoorState::new(),
        }
    }

    /// Waits until each peer that was answered has its response and has closed its side, or its time is over: twelve
    /// seconds at most. A door that goes without this lets these peers go as they are.
    pub fn finish(&mut self)
        ensures { self.new ≡ self.old }
    {
        let _ = self.peers.see_all_off(self.rt);
    }
}

impl<'r, T: ReadyTest> Listener for TurnDoor<'r, T> {
    type Source = TurnSource;

    type Sink = TurnSink;

    ghost seen = { door_told };

    ghost offers = { λ _ _. ⊥ };

    fn bind(&mut self, number: u16) -> Result<(), Failed> {
        let listening = self.peers.listen(self.rt, number);
        self.state.bind(number, listening)
    }

    fn accept(&mut self) -> Result<Both<TurnSource, TurnSink>, Failed> {
        let next = self.peers.next_link(self.rt);
        self.state.accept(next)
    }

    fn close(&mut self, link: Both<TurnSource, TurnSink>)
        requires { self.old.live ≡ 1 }
        ensures { self.new ≡ record self.old { live = 0 } }
    {
        let Both { source, sink } = link;
        self.state.close();
        if source.is_lost() || sink.is_lost() {
            return;
        }
        if let Ok(now) = Instant::now(self.rt) {
            self.peers.see_off(sink.into_leaving(), now);
        }
    }
}
