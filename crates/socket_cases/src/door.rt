//! A door on a port to which the peers of a case have connected as soon as it is bound.
ghost use Rattle.std.specs.Prelude.{◌≡◌, ℕ, None};
ghost use Rattle.desk_base.specs.Faults.{HasCause};
ghost use Rattle.tcp_door.specs.Tcp.{door_told};

use crate::peers::Peers;
use desk_base::{Both, Failed, FaultCount};
use desk_cases::Case;
use desk_links::Listener;
use std::marker::Model;
use tcp_door::{TcpDoor, TcpSink, TcpSource};

/// A door on a port of 127.0.0.1. It hands on each call. Where it is bound the peers of its case connect, send and shut
/// their writing side: the kernel takes them before they are accepted. No peer is waited for that did not come.
#[derive(Drop)]
pub struct PeerDoor<'r> {
    rt: &'r HostRuntime,
    case: &'r Case,
    door: TcpDoor<'r>,
    peers: Peers,
    taken: usize,
    faults: FaultCount,
}

impl<'r> Model for PeerDoor<'r> {
    ghost use Rattle.tcp_door.specs.Tcp.{TcpSeen};

    ghost Value = { TcpSeen };

    ghost view = { λ d. record {
      port = d.door.port;
      accepted = d.door.accepted;
      live = d.door.live;
      faults = d.faults;
    } };
}

impl<'r> PeerDoor<'r> {
    /// A door that is not bound yet, for the peers of this case.
    pub fn new(rt: &'r HostRuntime, case: &'r Case) -> PeerDoor<'r>
        ensures { result ≡ record { port = None; accepted = None; live = 0; faults = 0 } }
    {
        PeerDoor {
            rt,
            case,
            door: TcpDoor::new(rt),
            peers: Peers::none(rt.alloc()),
            taken: 0,
            faults: FaultCount::at(0),
        }
    }

    /// The peers, once the door is shut: none where it was not bound.
    pub fn into_peers(self) -> Peers {
        self.peers
    }
}

impl<'r> Listener for PeerDoor<'r> {
    type Source = TcpSource<'r>;

    type Sink = TcpSink<'r>;

    ghost seen = { door_told };

    ghost offers = { λ _ _. ⊥ };

    fn bind(&mut self, number: u16) -> Result<(), Failed> {
        let bound = self.door.bind(number);
        match bound {
            Ok(()) => {
                if let Ok(peers) = Peers::connect(self.rt, self.case, number) {
                    self.peers = peers;
                }
            }
            Err(_) => self.faults.rise(),
        }
        bound
    }

    fn accept(&mut self) -> Result<Both<TcpSource<'r>, TcpSink<'r>>, Failed> {
        if self.taken < self.peers.count() {
            self.taken += 1;
            if let Ok(link) = self.door.accept() {
                return Ok(link);
            }
        }
        self.faults.rise();
        Err(Failed)
    }

    fn close(&mut self, link: Both<TcpSource<'r>, TcpSink<'r>>)
        requires { self.old.live ≡ 1 }
        ensures { self.new ≡ record self.old { live = 0 } }
    {
        self.door.close(link);
    }
}
