//! A source that says on a terminal how much of it was read.
ghost use Rattle.std.specs.Prelude.{◌≡◌};

use desk_base::{Failed, Source};
use std::io::IsTerminal;
use std::time::Instant;

/// A source. Where standard error is a terminal, it says there at most every second how many bytes were read.
#[derive(Drop)]
pub struct Watched<'r, S> {
    rt: &'r HostRuntime,
    source: S,
    bytes: u64,
    /// When that was said last, or the reading began; none where standard error is no terminal.
    told: Option<Instant>,
}

impl<'r, S: Source> Watched<'r, S> {
    /// Over this source, of which nothing was read.
    pub fn over(rt: &'r HostRuntime, source: S) -> Watched<'r, S>
        ensures { result.source ≡ source }
    {
        let told = if rt.stderr().is_terminal() {
            Instant::now(rt).ok()
        } else {
            None
        };
        Watched {
            rt,
            source,
            bytes: 0,
            told,
        }
    }

    /// Says how many bytes were read, where a second went by.
    fn tell(&mut self)
        ensures { self.new.source ≡ self.old.source }
    {
        let Some(last) = self.told else {
            return;
        };
        let Ok(now) = Instant::now(self.rt) else {
            return;
        };
        if now.duration_since(last).as_secs() > 0 {
            drop(eprintln!(self.rt; "{} bytes read", self.bytes));
            self.told = Some(now);
        }
    }
}

impl<'r, S: Source> Source for Watched<'r, S> {
    ghost left = { λ w. S.left w.source };

    ghost read_faults = { λ w. S.read_faults w.source };

    ghost is_steady = { λ w. S.is_steady w.source };

    ghost reads = { λ before after room result. S.reads before.source after.source room result };

    fn read(&mut self, buf: &mut [u8]) -> Result<usize, Failed> {
        let count = self.source.read(buf)?;
        self.bytes = self.bytes.saturating_add(count as u64);
        self.tell();
        Ok(count)
    }
}
