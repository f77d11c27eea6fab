//! What both doors hold: the port that they listen at, and what they count. A clause sees the counts and the port.
ghost use Rattle.std.specs.Prelude.{◌≡◌, IfOk, OnErr, OnOk, None, Ok, Some};
ghost use Rattle.desk_base.specs.Counts.{risen};
ghost use Rattle.desk_base.specs.Faults.{HasCause};
ghost use Rattle.desk_links.specs.Doors.{MayAccept, one_more};

use desk_base::{Failed, FaultCount};
use std::io;
use std::marker::Model;

/// A port, what listens at it, and how many links were handed out since.
#[derive(Drop)]
struct Bound<L> {
    listener: L,
    port: u16,
    accepted: u32,
}

/// The port of a door and its counts. What listens at the port is held with it, or is `()` where the door has it
/// elsewhere.
#[derive(Drop)]
pub(crate) struct DoorState<L> {
    bound: Option<Bound<L>>,
    live: u32,
    faults: FaultCount,
}

impl<L> Model for DoorState<L> {
    ghost use Rattle.std.specs.Prelude.{option_map};
    ghost use Rattle.tcp_door.specs.Tcp.{TcpSeen};

    ghost Value = { TcpSeen };

    ghost view = { λ d. record {
      port = option_map (λ bound. bound.port) d.bound;
      accepted = option_map (λ bound. bound.accepted) d.bound;
      live = d.live;
      faults = d.faults;
    } };
}

impl<L: Drop> DoorState<L> {
    /// A door that is not bound yet.
    pub(crate) fn new() -> DoorState<L>
        ensures { result ≡ record { port = None; accepted = None; live = 0; faults = 0 } }
    {
        DoorState {
            bound: None,
            live: 0,
            faults: FaultCount::at(0),
        }
    }

    /// What listens at the port.
    pub(crate) fn listener(&self) -> &L
        requires { MayAccept self.now.accepted }
    {
        let Some(bound) = &self.bound else {
            unreachable!()
        };
        &bound.listener
    }

    /// The door is bound to the port with this number, at which this listens. It is a fault that nothing does.
    pub(crate) fn bind(&mut self, number: u16, listening: io::Result<L>) -> Result<(), Failed>
        ensures bound { OnOk result (self.new ≡ record self.old { port = Some number; accepted = Some 0 }) }
        ensures failed { OnErr result (self.new ≡ record self.old { faults = risen self.old.faults }) }
        ensures cause { HasCause self.old.faults self.new.faults result }
    {
        let listener = self.counted(listening)?;
        self.bound = Some(Bound {
            listener,
            port: number,
            accepted: 0,
        });
        Ok(())
    }

    /// The door hands out this link. It is a fault that none has come.
    pub(crate) fn accept<C>(&mut self, next: io::Result<C>) -> Result<C, Failed>
        requires { MayAccept self.old.accepted }
        ensures link { IfOk result (λ link. next ≡ Ok link) }
        ensures opened { OnOk result
            (self.new ≡ record self.old { accepted = one_more self.old.accepted; live = 1 }) }
        ensures failed { OnErr result (self.new ≡ record self.old { faults = risen self.old.faults }) }
        ensures cause { HasCause self.old.faults self.new.faults result }
    {
        let link = self.counted(next)?;
        let Some(bound) = &mut self.bound else {
            unreachable!()
        };
        bound.accepted += 1;
        self.live = 1;
        Ok(link)
    }

    /// The open link is closed.
    pub(crate) fn close(&mut self)
        ensures { self.new ≡ record self.old { live = 0 } }
    {
        self.live = 0;
    }

    /// What a call gave. It is a fault that it failed.
    fn counted<C>(&mut self, tried: io::Result<C>) -> Result<C, Failed>
        ensures given { IfOk result (λ given. tried ≡ Ok given) }
        ensures kept { OnOk result (self.new ≡ self.old) }
        ensures failed { OnErr result (self.new ≡ record self.old { faults = risen self.old.faults }) }
        ensures cause { HasCause self.old.faults self.new.faults result }
    {
        if tried.is_err() {
            self.faults.rise();
        }
        tried.map_err(|_| Failed)
    }
}
