//! A door in memory, some of whose calls are to fail. A clause sees its links, its counts and which calls fail.
ghost use Rattle.std.specs.Prelude.{◌≡◌, ◌+◌, ◌≤◌, ◌↔◌, ◌⊎◌, ◌++◌, ◌∷◌, [], ℕ, All, map, length, Some, None};
ghost use Rattle.std.specs.Prelude.{IsOk, IfOk, OnOk, OnErr, IsErr};
ghost use Rattle.desk_base.specs.Faults.{CountsFaults, HasCause};
ghost use Rattle.desk_base.specs.Memory.{NextFails, after_call};
ghost use Rattle.desk_links.specs.Doors.{Closes, HandsOut, IsFresh, MayAccept, one_more};
ghost use Rattle.desk_links.specs.Memory.{IsUncalled, told_door, with_fault};

use crate::door::Listener;
use desk_base::{
    Both, CallPlan, Failed, FaultCount, List, MemLink, MemSink, MemSource, NoMemory, Room,
};
use std::alloc::Global;
use std::collections::VecDeque;
use std::marker::Model;

/// A door that hands out links in memory. Its calls of `bind` and `accept` are counted from 1. The k-th fails exactly
/// where `fails` holds k, or where it is an `accept` and no link is left. A count of calls stands at 2^64 - 1, and from
/// then on no call fails by `fails`.
#[derive(Debug, Drop)]
pub struct MemDoor {
    links: VecDeque<MemLink>,
    closed: Room<MemLink>,
    port: Option<u16>,
    accepted: Option<u32>,
    live: u32,
    plan: CallPlan,
    faults: FaultCount,
}

impl Model for MemDoor {
    ghost use Rattle.std.specs.Prelude.{◌+◌, ◌≤◌, All, length};
    ghost use Rattle.desk_links.specs.Memory.{DoorSeen, IsUncalled};

    ghost Value = { DoorSeen };

    ghost view = { λ d. record {
      links = d.links.items;
      closed = d.closed.items;
      port = d.port;
      accepted = d.accepted;
      live = d.live;
      schedule = d.plan;
      faults = d.faults;
    } };

    ghost invariant = { λ d. (length d.links.items + d.live ≤ d.closed.spare) × All IsUncalled d.links.items };
}

impl MemDoor {
    /// A door that hands out these links in their order, of which no end was called yet. It keeps those that are closed
    /// in room that it takes here.
    pub fn new(alloc: Global, links: List<MemLink>, fails: List<u64>) -> Result<MemDoor, NoMemory>
        requires { All IsUncalled links }
        ensures { IfOk result (λ door. door ≡ record {
          links = links;
          closed = [];
          port = None;
          accepted = None;
          live = 0;
          schedule = record { calls = 0; fails = fails };
          faults = 0;
        }) }
    {
        let mut closed = Room::new(alloc);
        closed.reserve(links.len())?;
        Ok(MemDoor {
            links: VecDeque::from(links.into_vec()),
            closed,
            port: None,
            accepted: None,
            live: 0,
            plan: CallPlan::after(0, fails),
            faults: FaultCount::at(0),
        })
    }

    /// How many links were handed out since the door was bound; none before it is bound.
    pub fn accepted(&self) -> Option<u32>
        ensures { result ≡ self.now.accepted }
    {
        self.accepted
    }

    /// How many links were handed out and are not closed.
    pub fn live(&self) -> u32
        ensures { result ≡ self.now.live }
    {
        self.live
    }

    /// The links that were closed, the first one first.
    pub fn into_closed(self) -> Vec<MemLink>
        ensures { result.items ≡ self.closed }
    {
        self.closed.into_vec()
    }
}

impl Listener for MemDoor {
    type Source = MemSource;

    type Sink = MemSink;

    ghost seen = { told_door };

    ghost offers = { λ d count. (d.schedule.fails ≡ []) × (count ≤ length d.links) };

    fn bind(&mut self, number: u16) -> Result<(), Failed>
        ensures fails { IsErr result ↔ NextFails self.old.schedule }
        ensures bound { OnOk result (self.new ≡ record self.old {
          port = Some number;
          accepted = Some 0;
          schedule = after_call self.old.schedule;
        }) }
        ensures failed { OnErr result (self.new ≡ with_fault self.old) }
        ensures cause { HasCause self.old.faults self.new.faults result }
    {
        if self.plan.next_fails() {
            self.faults.rise();
            return Err(Failed);
        }
        self.port = Some(number);
        self.accepted = Some(0);
        Ok(())
    }

    fn accept(&mut self) -> Result<MemLink, Failed>
        requires idle { self.old.live ≡ 0 }
        requires bound { MayAccept self.old.accepted }
        ensures fails { IsErr result ↔ (NextFails self.old.schedule ⊎ (self.old.links ≡ [])) }
        ensures link { IfOk result (λ link. self.old.links ≡ link ∷ self.new.links) }
        ensures fresh { IfOk result IsUncalled }
        ensures opened { OnOk result (self.new ≡ record self.old {
          links = self.new.links;
          accepted = one_more self.old.accepted;
          live = 1;
          schedule = after_call self.old.schedule;
        }) }
        ensures failed { OnErr result (self.new ≡ with_fault self.old) }
        ensures cause { HasCause self.old.faults self.new.faults result }
    {
        let Some(count) = self.accepted else {
            unreachable!()
        };
        if self.plan.next_fails() {
            self.faults.rise();
            return Err(Failed);
        }
        match self.links.pop_front() {
            Some(link) => {
                self.accepted = Some(count + 1);
                self.live = 1;
                Ok(link)
            }
            None => {
                self.faults.rise();
                Err(Failed)
            }
        }
    }

    fn close(&mut self, link: MemLink)
        requires { self.old.live ≡ 1 }
        ensures { self.new ≡ record self.old { live = 0; closed = self.old.closed ++ link ∷ [] } }
    {
        self.live = 0;
        self.closed.push_reserved(link);
    }
}
