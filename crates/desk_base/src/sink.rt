//! Where bytes go. A clause sees the bytes that were written, where the sink tells them, and how often
//! it has failed.
ghost use Rattle.std.specs.Prelude.{◌≡◌, ◌<◌, ◌≤◌, ◌-◌, ℕ, List, Option, Result, length, IsOk, IfOk, OnOk, OnErr};
ghost use Rattle.std.specs.Io.KnownBytes.{WriteAppends, Appends};
ghost use Rattle.desk_base.specs.Faults.{HasCause, CountsFaults, AppendsPart, TakesOn};
ghost use Rattle.desk_base.specs.declared.error.Failed.{Failed};

use crate::error::Failed;
use crate::fault_count::FaultCount;
use std::io::Write;
use std::marker::Model;

/// A stream of bytes that can be written.
pub trait Sink {
    /// The bytes that were written, where the sink tells them.
    ghost written: { Self → Option (List ℕ) };

    /// How often a write has failed. It never falls, and stands at 2^64 - 1.
    ghost write_faults: { Self → ℕ };

    /// The next so many bytes are taken without a fault.
    ghost takes: { Self → ℕ → Type 0 };

    /// What a call may do: the sink before and after it, how many bytes the piece has, and the answer. A
    /// type says here what it promises besides.
    ghost writes: { Self → Self → ℕ → Result ℕ Failed → Type 0 };

    /// Writes the first bytes of the piece, at least one, and answers how many. Where it fails nothing
    /// was written.
    fn write(&mut self, piece: &[u8]) -> Result<usize, Failed>
        requires { 0 < length piece.now }
        ensures some { IfOk result (λ count. (0 < count) × (count ≤ length piece.now)) }
        ensures bytes { WriteAppends (written self.old) (written self.new) result piece.now }
        ensures cause { HasCause (write_faults self.old) (write_faults self.new) result }
        ensures takes { (room : ℕ) → takes self.old room → length piece.now ≤ room
            → TakesOn (takes self.new) room result }
        ensures writes { writes self.old self.new (length piece.now) result };
}

/// Writes the whole piece. Where the sink fails, a part of it stands there, but not all.
pub fn write_all<W: Sink>(sink: &mut W, piece: &[u8]) -> Result<(), Failed>
    ensures written { OnOk result (Appends (W.written sink.old) (W.written sink.new) piece.now) }
    ensures part { OnErr result (AppendsPart (W.written sink.old) (W.written sink.new) piece.now) }
    ensures cause { HasCause (W.write_faults sink.old) (W.write_faults sink.new) result }
    ensures takes { (room : ℕ) → W.takes sink.old room → length piece.now ≤ room
        → IsOk result × W.takes sink.new (room - length piece.now) }
{
    let mut at = 0;
    'pieces: while at < piece.len() {
        at += sink.write(&piece[at..])?;
    }
    Ok(())
}

/// A writer of std as a sink. An error of the writer is a fault, and so is a write that takes nothing.
#[derive(Debug, Drop)]
pub struct StdSink<W: Write> {
    writer: W,
    faults: FaultCount,
}

impl<W: Write> Model for StdSink<W> {
    ghost use Rattle.desk_base.specs.Counted.{Counted, counted_code};

    ghost Value = { Counted W };

    ghost coded = { counted_code W.code };

    ghost view = { λ s. record { device = s.writer; faults = s.faults } };
}

impl<W: Write> StdSink<W> {
    /// The sink over this writer. Its count of faults begins at 0.
    pub fn new(writer: W) -> StdSink<W>
        ensures { result ≡ record { device = writer; faults = 0 } }
    {
        StdSink {
            writer,
            faults: FaultCount::at(0),
        }
    }
}

impl<W: Write> Sink for StdSink<W> {
    ghost written = { λ s. W.contents s.device };

    ghost write_faults = { λ s. s.faults };

    ghost takes = { λ _ _. ⊥ };

    // The count rises exactly with a fault.
    ghost writes = { λ before after _ result. CountsFaults before.faults after.faults result };

    fn write(&mut self, piece: &[u8]) -> Result<usize, Failed> {
        match self.writer.write(piece) {
            Ok(count) if count > 0 => Ok(count),
            _ => {
                self.faults.rise();
                Err(Failed)
            }
        }
    }
}
