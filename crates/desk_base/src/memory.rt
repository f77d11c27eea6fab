//! Streams in memory, some of whose calls are to fail. A clause sees their bytes, their counts and
//! which calls fail.
ghost use Rattle.std.specs.Prelude.{◌≡◌, ◌+◌, ◌≤◌, ◌↔◌, [], length, IsTrue, IfOk, Some};
ghost use Rattle.desk_base.specs.Memory.{NextFails, after_call};
ghost use Rattle.desk_base.specs.Plans.{ReadsByPlan, WritesByPlan};

use crate::both::Both;
use crate::error::{Failed, NoMemory};
use crate::fault_count::FaultCount;
use crate::list::List;
use crate::sink::Sink;
use crate::source::Source;
use std::alloc::Global;
use std::marker::Model;

/// How many calls a device has answered, and which of them, counted from 1, are to fail.
#[derive(Debug, Drop)]
pub struct CallPlan {
    calls: u64,
    fails: Vec<u64>,
}

impl Model for CallPlan {
    ghost use Rattle.desk_base.specs.Memory.{Schedule, schedule_code};

    ghost Value = { Schedule };

    ghost coded = { schedule_code };

    ghost view = { λ p. record { calls = p.calls; fails = p.fails.items } };
}

impl CallPlan {
    /// So many calls were made, and these are to fail.
    pub fn after(calls: u64, fails: List<u64>) -> CallPlan
        ensures { result ≡ record { calls = calls; fails = fails } }
    {
        CallPlan {
            calls,
            fails: fails.into_vec(),
        }
    }

    /// Counts a call, and says whether it is to fail. A count at 2^64 - 1 stays there, and no call fails
    /// from then on.
    pub fn next_fails(&mut self) -> bool
        ensures fails { IsTrue result ↔ NextFails self.old }
        ensures counted { self.new ≡ after_call self.old }
    {
        if self.calls == u64::MAX {
            return false;
        }
        self.calls += 1;
        self.fails.contains(&self.calls)
    }
}

/// A source over bytes in memory.
#[derive(Debug, Drop)]
pub struct MemSource {
    bytes: Vec<u8>,
    at: usize,
    cut: usize,
    plan: CallPlan,
    faults: FaultCount,
}

impl Model for MemSource {
    ghost use Rattle.std.specs.Prelude.{◌≤◌, drop, length};
    ghost use Rattle.desk_base.specs.Memory.{SourceSeen, source_seen_code};

    ghost Value = { SourceSeen };

    ghost coded = { source_seen_code };

    ghost view = { λ s. record { left = drop s.at s.bytes.items; cut = s.cut; schedule = s.plan; faults = s.faults } };

    ghost invariant = { λ s. (s.at ≤ length s.bytes.items) × (1 ≤ s.cut) };
}

impl MemSource {
    /// A source that gives these bytes, at most `cut` a call. Its k-th call, from 1, fails exactly where
    /// `fails` holds k.
    pub fn new(bytes: List<u8>, cut: usize, fails: List<u64>) -> MemSource
        requires { 1 ≤ cut }
        ensures { result ≡ record {
          left = bytes;
          cut = cut;
          schedule = record { calls = 0; fails = fails };
          faults = 0;
        } }
    {
        MemSource {
            bytes: bytes.into_vec(),
            at: 0,
            cut,
            plan: CallPlan::after(0, fails),
            faults: FaultCount::at(0),
        }
    }
}

impl Source for MemSource {
    ghost left = { λ s. Some s.left };

    ghost read_faults = { λ s. s.faults };

    ghost is_steady = { λ s. s.schedule.fails ≡ [] };

    ghost reads = { ReadsByPlan };

    fn read(&mut self, buf: &mut [u8]) -> Result<usize, Failed> {
        if self.plan.next_fails() {
            self.faults.rise();
            return Err(Failed);
        }
        let rest = &self.bytes[self.at..];
        let count = rest.len().min(buf.len()).min(self.cut);
        buf[..count].copy_from_slice(&rest[..count]);
        self.at += count;
        Ok(count)
    }
}

/// A sink that keeps what is written in memory.
#[derive(Debug, Drop)]
pub struct MemSink {
    bytes: Vec<u8>,
    cut: usize,
    room: usize,
    plan: CallPlan,
    faults: FaultCount,
}

impl Model for MemSink {
    ghost use Rattle.std.specs.Prelude.{◌≤◌, length, vec_capacity};
    ghost use Rattle.desk_base.specs.Memory.{SinkSeen, sink_seen_code};

    ghost Value = { SinkSeen };

    ghost coded = { sink_seen_code };

    ghost view = { λ s. record {
      written = s.bytes.items;
      cut = s.cut;
      room = s.room;
      schedule = s.plan;
      faults = s.faults;
    } };

    ghost invariant = { λ s. (length s.bytes.items ≤ s.room) × (s.room ≤ vec_capacity s.bytes) × (1 ≤ s.cut) };
}

impl MemSink {
    /// A sink that takes at most `cut` bytes a call and `room` bytes in all, for which it takes the memory
    /// here. Its k-th call, from 1, fails exactly where `fails` holds k or `room` bytes are written.
    pub fn new(
        alloc: Global,
        cut: usize,
        room: usize,
        fails: List<u64>,
    ) -> Result<MemSink, NoMemory>
        requires { 1 ≤ cut }
        ensures { IfOk result (λ sink. sink ≡ record {
          written = [];
          cut = cut;
          room = room;
          schedule = record { calls = 0; fails = fails };
          faults = 0;
        }) }
    {
        let bytes = Vec::with_capacity(alloc, room)?;
        Ok(MemSink {
            bytes,
            cut,
            room,
            plan: CallPlan::after(0, fails),
            faults: FaultCount::at(0),
        })
    }

    /// What was written.
    pub fn bytes(&self) -> &[u8]
        ensures { result.now ≡ self.now.written }
    {
        self.bytes.as_slice()
    }
}

impl Sink for MemSink {
    ghost written = { λ s. Some s.written };

    ghost write_faults = { λ s. s.faults };

    ghost takes = { λ s room. (s.schedule.fails ≡ []) × (room + length s.written ≤ s.room) };

    ghost writes = { WritesByPlan };

    fn write(&mut self, piece: &[u8]) -> Result<usize, Failed> {
        let fails = self.plan.next_fails();
        if fails || self.bytes.len() >= self.room {
            self.faults.rise();
            return Err(Failed);
        }
        let free = self.room - self.bytes.len();
        let count = piece.len().min(free).min(self.cut);
        self.bytes.extend_from_slice(&piece[..count]).unwrap();
        Ok(count)
    }
}

/// A link whose two ends stand in memory.
pub type MemLink = Both<MemSource, MemSink>;
