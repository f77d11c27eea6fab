//! A source and a sink held together.
ghost use Rattle.std.specs.Prelude.{◌≡◌};

use crate::error::Failed;
use crate::sink::Sink;
use crate::source::Source;

/// Both ends of a link. A read is one read of the source and leaves the sink, and a write is one write of
/// the sink and leaves the source.
#[derive(Debug, Drop)]
pub struct Both<S, W> {
    pub source: S,
    pub sink: W,
}

impl<S: Source, W> Source for Both<S, W> {
    ghost left = { λ b. S.left b.source };

    ghost read_faults = { λ b. S.read_faults b.source };

    ghost is_steady = { λ b. S.is_steady b.source };

    ghost reads = { λ before after room result.
        S.reads before.source after.source room result × (after.sink ≡ before.sink) };

    fn read(&mut self, buf: &mut [u8]) -> Result<usize, Failed> {
        self.source.read(buf)
    }
}

impl<S, W: Sink> Sink for Both<S, W> {
    ghost written = { λ b. W.written b.sink };

    ghost write_faults = { λ b. W.write_faults b.sink };

    ghost takes = { λ b. W.takes b.sink };

    ghost writes = { λ before after size result.
        W.writes before.sink after.sink size result × (after.source ≡ before.source) };

    fn write(&mut self, piece: &[u8]) -> Result<usize, Failed> {
        self.sink.write(piece)
    }
}
