//! A door on a TCP port of the loopback address. A clause sees its counts and its port.
ghost use Rattle.std.specs.Prelude.{◌≡◌, IfOk, None};
ghost use Rattle.tcp_door.specs.Tcp.{door_told, fresh_end};

use crate::door_state::DoorState;
use crate::ends::{TcpSink, TcpSource};
use desk_base::{Both, Failed};
use desk_links::Listener;
use std::io;
use std::marker::Model;
use std::net::{Ipv4Addr, OpenListener, TcpListener};

/// A door on a port of 127.0.0.1. It tells nothing of the bytes of its peers.
#[derive(Drop)]
pub struct TcpDoor<'r> {
    rt: &'r HostRuntime,
    state: DoorState<TcpListener>,
}

impl<'r> Model for TcpDoor<'r> {
    ghost use Rattle.tcp_door.specs.Tcp.{TcpSeen};

    ghost Value = { TcpSeen };

    ghost view = { λ d. d.state };
}

impl<'r> TcpDoor<'r> {
    /// A door that is not bound yet. Nothing is opened.
    pub fn new(rt: &'r HostRuntime) -> TcpDoor<'r>
        ensures { result ≡ record { port = None; accepted = None; live = 0; faults = 0 } }
    {
        TcpDoor {
            rt,
            state: DoorState::new(),
        }
    }
}

/// Waits for the next peer.
fn connect<'r>(
    rt: &'r HostRuntime,
    listener: &TcpListener,
) -> io::Result<Both<TcpSource<'r>, TcpSink<'r>>>
    ensures { IfOk result (λ link. (link.source ≡ fresh_end) × (link.sink ≡ fresh_end)) }
{
    let (stream, _) = listener.accept()?;
    let sink = TcpSink::new(rt, stream.try_clone()?);
    let source = TcpSource::new(rt, stream);
    Ok(Both { source, sink })
}

impl<'r> Listener for TcpDoor<'r> {
    type Source = TcpSource<'r>;

    type Sink = TcpSink<'r>;

    ghost seen = { door_told };

    ghost offers = { λ _ _. ⊥ };

    fn bind(&mut self, number: u16) -> Result<(), Failed> {
        let listening = TcpListener::bind(self.rt, (Ipv4Addr::LOCALHOST, number));
        self.state.bind(number, listening)
    }

    fn accept(&mut self) -> Result<Both<TcpSource<'r>, TcpSink<'r>>, Failed> {
        let next = connect(self.rt, self.state.listener());
        self.state.accept(next)
    }

    fn close(&mut self, link: Both<TcpSource<'r>, TcpSink<'r>>)
        requires { self.old.live ≡ 1 }
        ensures { self.new ≡ record self.old { live = 0 } }
    {
        let Both { source, sink } = link;
        let is_lost = source.is_lost() || sink.is_lost();
        sink.finish();
        if !is_lost {
            source.drain();
        }
        self.state.close();
    }
}
