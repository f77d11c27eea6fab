//! What both ends of a link to a peer that is waited for hold: its socket, and the time that it has. A clause sees the
//! time, and the count of faults.
ghost use Rattle.std.specs.Prelude.{◌≡◌, ◌≤◌, None};
ghost use Rattle.std.specs.Io.{ReadsAtMost, WritesAtMost};
ghost use Rattle.desk_base.specs.Counts.{risen};
ghost use Rattle.tcp_door.specs.Tcp.{fresh_end};
ghost use Rattle.tcp_door.specs.Time.{KeepsTime};

use crate::deadline::{Deadline, WAIT};
use crate::end_faults::EndFaults;
use desk_base::Failed;
use std::io;
use std::io::{ErrorKind, Read, Write};
use std::marker::Model;
use std::net::{Shutdown, TcpStream};
use std::time::{Duration, Instant};

/// The time that is left, which is not zero. It is an error that none is.
fn time_left(rt: &HostRuntime, deadline: &mut Deadline) -> io::Result<Duration>
    ensures { KeepsTime deadline.old deadline.new }
{
    let now = Instant::now(rt)?;
    match deadline.left(now) {
        Some(left) => Ok(left),
        None => Err(io::Error::from(ErrorKind::TimedOut)),
    }
}

/// Whether a signal came before anything was read or written.
fn is_interrupted(moved: &io::Result<usize>) -> bool {
    match moved {
        Ok(_) => false,
        Err(error) => error.kind() == ErrorKind::Interrupted,
    }
}

/// A socket that is read or written with a deadline.
#[derive(Drop)]
pub(crate) struct LinkEnd<'r> {
    rt: &'r HostRuntime,
    stream: TcpStream,
    deadline: Deadline,
    faults: EndFaults,
}

impl<'r> Model for LinkEnd<'r> {
    ghost use Rattle.tcp_door.specs.Tcp.{TcpEnd};

    ghost Value = { TcpEnd };

    ghost view = { λ e. record { faults = e.faults; time = e.deadline } };
}

impl<'r> LinkEnd<'r> {
    /// The end over this socket.
    pub(crate) fn new(rt: &'r HostRuntime, stream: TcpStream) -> LinkEnd<'r>
        ensures { result ≡ fresh_end }
    {
        LinkEnd {
            rt,
            stream,
            deadline: Deadline::after(WAIT),
            faults: EndFaults::none(),
        }
    }

    /// Whether a call has failed, so that the peer is not waited for any more.
    pub(crate) fn is_lost(&self) -> bool {
        self.faults.is_lost()
    }

    /// Counts a call that has failed. The end is lost from then on.
    pub(crate) fn lose(&mut self) -> Failed
        ensures risen { self.new ≡ record self.old { faults = risen self.old.faults } }
        ensures later { self.old.faults ≤ self.new.faults }
    {
        self.faults.lose()
    }

    /// Gives the peer so many seconds for all waits from now on, which begin with the first of them.
    pub(crate) fn wait_anew(&mut self, seconds: u64)
        ensures { self.new ≡ record self.old { time = record { seconds = seconds; until = None } } }
    {
        self.deadline = Deadline::after(seconds);
    }

    /// Reads while there is time. A read that a signal interrupts is made again.
    pub(crate) fn read_in_time(&mut self, buf: &mut [u8]) -> io::Result<usize>
        ensures within { ReadsAtMost result buf.new }
        ensures faults { self.new.faults ≡ self.old.faults }
        ensures time { KeepsTime self.old.time self.new.time }
    {
        'reads: for _ in 0..u64::MAX {
            let read = self.read_once(buf);
            if !is_interrupted(&read) {
                return read;
            }
        }
        Err(io::Error::from(ErrorKind::TimedOut))
    }

    fn read_once(&mut self, buf: &mut [u8]) -> io::Result<usize>
        ensures within { ReadsAtMost result buf.new }
        ensures faults { self.new.faults ≡ self.old.faults }
        ensures time { KeepsTime self.old.time self.new.time }
    {
        let left = time_left(self.rt, &mut self.deadline)?;
        self.stream.set_read_timeout(Some(left))?;
        self.stream.read(buf)
    }

    /// Writes while there is time. A write that a signal interrupts is made again.
    pub(crate) fn write_in_time(&mut self, piece: &[u8]) -> io::Result<usize>
        ensures within { WritesAtMost result piece.now }
        ensures faults { self.new.faults ≡ self.old.faults }
        ensures time { KeepsTime self.old.time self.new.time }
    {
        'writes: for _ in 0..u64::MAX {
            let written = self.write_once(piece);
            if !is_interrupted(&written) {
                return written;
            }
        }
        Err(io::Error::from(ErrorKind::TimedOut))
    }

    fn write_once(&mut self, piece: &[u8]) -> io::Result<usize>
        ensures within { WritesAtMost result piece.now }
        ensures faults { self.new.faults ≡ self.old.faults }
        ensures time { KeepsTime self.old.time self.new.time }
    {
        let left = time_left(self.rt, &mut self.deadline)?;
        self.stream.set_write_timeout(Some(left))?;
        self.stream.write(piece)
    }

    /// Tells the peer that nothing more is sent.
    pub(crate) fn shut(&self) {
        let _ = self.stream.shutdown(Shutdown::Write);
    }
}
