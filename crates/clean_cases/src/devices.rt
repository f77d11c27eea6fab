//! A source and sinks in memory, of which one call may fail.
use desk_base::{List, MemSink, MemSource};
use sheet_filter::Outputs;
use std::alloc::Global;
use std::test::Fail;

/// How many bytes a sink has room for.
const ROOM: usize = 100_000;

/// A source or a sink.
#[derive(Clone, Copy, Debug, PartialEq, Eq)]
pub enum Device {
    Source,
    Clean,
    Changes,
    Conflicts,
    Dissents,
}

/// How devices behave: how many bytes a call moves at most, and which call of which device, counted from 1, fails.
#[derive(Clone, Copy)]
pub struct Plan {
    pub cut: usize,
    pub fails: Option<(Device, u64)>,
}

impl Plan {
    /// The source of a sheet.
    pub fn source(&self, alloc: Global, sheet: &[u8]) -> Result<MemSource, Fail> {
        let fails = self.fails_of(alloc, Device::Source)?;
        let bytes = List::from_vec(Vec::from_slice(alloc, sheet)?);
        Ok(MemSource::new(bytes, self.cut.max(1), fails))
    }

    /// The sinks of the sheets.
    pub fn outputs(&self, alloc: Global) -> Result<Outputs<MemSink, MemSink>, Fail> {
        Ok(Outputs {
            clean: self.sink(alloc, Device::Clean)?,
            changes: self.sink(alloc, Device::Changes)?,
            conflicts: self.sink(alloc, Device::Conflicts)?,
            dissents: self.sink(alloc, Device::Dissents)?,
        })
    }

    /// A sink.
    pub fn sink(&self, alloc: Global, device: Device) -> Result<MemSink, Fail> {
        let fails = self.fails_of(alloc, device)?;
        Ok(MemSink::new(alloc, self.cut.max(1), ROOM, fails)?)
    }

    /// Which calls of a device fail.
    fn fails_of(&self, alloc: Global, device: Device) -> Result<List<u64>, Fail> {
        let mut fails = List::new(alloc);
        match self.fails {
            Some((failing, number)) if failing == device => fails.push(number)?,
            _ => {}
        }
        Ok(fails)
    }
}
