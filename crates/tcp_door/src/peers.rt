//! The peers of a door that reads them in turns. A clause sees those that are to be handed out.
ghost use Rattle.std.specs.Prelude.{◌≡◌, [], IfOk, IfSome};
ghost use Rattle.tcp_door.specs.Turns.{IsDue, IsFreshGiven};

use crate::held::HeldPeer;
use crate::leaving::LeavingPeer;
use crate::ready_test::ReadyTest;
use crate::turn_ends::{TurnSink, TurnSource};
use crate::watch::Watch;
use desk_base::Both;
use std::alloc::Global;
use std::collections::VecDeque;
use std::io;
use std::io::ErrorKind;
use std::marker::Model;
use std::net::TcpStream;
use std::time::{Duration, Instant};

/// How many peers that are not due are held beside the one that came last.
const MOST_BESIDE: usize = 64;

/// How many peers that were answered are waited for at most.
const MOST_LEAVING: usize = 64;

/// How long a wait is at most where a peer is waited for, in milliseconds: so late its deadline is seen at most.
const TICK: u64 = 100;

/// The peers of a port once it is listened at: those that are held, those that are due, and those that leave, each in
/// the order in which they came to be so.
pub(crate) struct Peers<T: ReadyTest> {
    alloc: Global,
    test: T,
    watch: Option<Watch>,
    held: VecDeque<HeldPeer>,
    due: VecDeque<HeldPeer>,
    leaving: VecDeque<LeavingPeer>,
}

impl<T: ReadyTest + Drop> Drop for Peers<T> {
    fn drop(self) {
        let Peers {
            alloc: _,
            test,
            watch,
            held,
            due,
            leaving,
        } = self;
        drop((test, watch, held, due, leaving));
    }
}

impl<T: ReadyTest> Model for Peers<T> {
    ghost use Rattle.std.specs.Prelude.{List, All};
    ghost use Rattle.tcp_door.specs.Turns.{PeerSeen, IsDue};

    ghost Value = { List PeerSeen };

    ghost view = { λ p. p.due.items };

    ghost invariant = { λ p. All (IsDue T.tells) p.due.items };
}

impl<T: ReadyTest> Peers<T> {
    /// No peers, and a test of those that will come.
    pub(crate) fn new(alloc: Global, test: T) -> Peers<T>
        ensures { result ≡ [] }
    {
        Peers {
            alloc,
            test,
            watch: None,
            held: VecDeque::new(alloc),
            due: VecDeque::new(alloc),
            leaving: VecDeque::new(alloc),
        }
    }

    /// Listens at the port with this number, and lets all peers of another go.
    pub(crate) fn listen(&mut self, rt: &HostRuntime, port: u16) -> io::Result<()> {
        self.watch = Some(Watch::bind(rt, port)?);
        self.held.clear();
        self.due.clear();
        self.leaving.clear();
        Ok(())
    }

    /// Takes rounds until a peer is due, and waits where nothing has come. It is an error that no port is listened at.
    pub(crate) fn next_link(&mut self, rt: &HostRuntime) -> io::Result<Both<TurnSource, TurnSink>>
        ensures { IfOk result (λ link. IsFreshGiven T.tells link.source × (link.sink ≡ 0)) }
    {
        'rounds: for _ in 0..u64::MAX {
            if let Some(peer) = self.next_due() {
                return Ok(peer.into_link());
            }
            if !self.take_round(Instant::now(rt)?)? {
                self.wait()?;
            }
        }
        Err(io::Error::from(ErrorKind::TimedOut))
    }

    /// The first of those that are due, if there is one.
    fn next_due(&mut self) -> Option<HeldPeer>
        ensures { IfSome result (IsDue T.tells) }
    {
        self.due.pop_front()
    }

    /// Takes a turn of each peer, and the next that has connected. Says whether anything has come.
    fn take_round(&mut self, now: Instant) -> io::Result<bool> {
        let has_come = self.take_turns(now)?;
        self.take_leaving_turns(now);
        match self.next_peer()? {
            Some(stream) => {
                self.join(stream, now)?;
                Ok(true)
            }
            None => Ok(has_come),
        }
    }

    /// The next peer that has connected, if one has.
    fn next_peer(&self) -> io::Result<Option<TcpStream>> {
        match &self.watch {
            Some(watch) => watch.next_peer(),
            None => Err(io::Error::from(ErrorKind::NotConnected)),
        }
    }

    /// Waits until something comes, and not for long where a peer is waited for.
    fn wait(&mut self) -> io::Result<()> {
        let most = self.longest_wait();
        match &mut self.watch {
            Some(watch) => watch.wait(most),
            None => Err(io::Error::from(ErrorKind::NotConnected)),
        }
    }

    /// Takes a peer that has just connected, and a first turn of it. Where too many are held, the first of them gives
    /// way.
    fn join(&mut self, stream: TcpStream, now: Instant) -> io::Result<()> {
        let peer = HeldPeer::new(self.alloc, stream);
        self.take_turn(peer, now)?;
        if self.held.len() > MOST_BESIDE + 1 {
            self.give_way()?;
        }
        Ok(())
    }

    /// The first of those that are held is due.
    fn give_way(&mut self) -> io::Result<()> {
        if let Some(mut peer) = self.held.pop_front() {
            peer.give_way();
            self.due.push_back(peer)?;
        }
        Ok(())
    }

    /// Takes a turn of each peer that is held, in their order. Says whether anything has come.
    fn take_turns(&mut self, now: Instant) -> io::Result<bool> {
        let mut has_come = false;
        'peers: for _ in 0..self.held.len() {
            let Some(peer) = self.held.pop_front() else {
                return Ok(has_come);
            };
            has_come |= self.take_turn(peer, now)?;
        }
        Ok(has_come)
    }

    /// Takes a turn of a peer, and puts it after those that are due or those that are held. Says whether anything came.
    fn take_turn(&mut self, mut peer: HeldPeer, now: Instant) -> io::Result<bool> {
        let has_come = peer.take_turn(now);
        if peer.is_due(&self.test) {
            self.due.push_back(peer)?;
            return Ok(true);
        }
        self.held.push_back(peer)?;
        Ok(has_come)
    }

    /// Takes a turn of a peer that was answered, and keeps it where it is to be waited for. Where too many are, the
    /// first of them is not waited for any more.
    pub(crate) fn see_off(&mut self, mut peer: LeavingPeer, now: Instant) {
        if !peer.takes_turn(now) {
            return;
        }
        if self.leaving.len() >= MOST_LEAVING {
            drop(self.leaving.pop_front());
        }
        let _ = self.leaving.push_back(peer);
    }

    /// Takes a turn of each peer that was answered.
    fn take_leaving_turns(&mut self, now: Instant) {
        'peers: for _ in 0..self.leaving.len() {
            let Some(peer) = self.leaving.pop_front() else {
                return;
            };
            self.see_off(peer, now);
        }
    }

    /// Waits until no peer that was answered is to be waited for.
    pub(crate) fn see_all_off(&mut self, rt: &HostRuntime) -> io::Result<()> {
        'rounds: for _ in 0..u64::MAX {
            self.take_leaving_turns(Instant::now(rt)?);
            if self.leaving.is_empty() {
                return Ok(());
            }
            self.wait()?;
        }
        Ok(())
    }

    /// How long to wait for the next thing to come. Without end where no peer is waited for.
    fn longest_wait(&self) -> Option<Duration> {
        if self.held.is_empty() && self.leaving.is_empty() {
            None
        } else {
            Some(Duration::from_millis(TICK))
        }
    }
}
