//! Where bytes come from. A clause sees the bytes that are left, where the source tells them, and how
//! often it has failed.
ghost use Rattle.std.specs.Prelude.{◌≡◌, ◌<◌, ℕ, List, Option, Result, length, IsOk, ⊤};
ghost use Rattle.std.specs.Io.{ReadsAtMost};
ghost use Rattle.std.specs.Io.KnownBytes.{ReadConsumes};
ghost use Rattle.desk_base.specs.Faults.{HasCause, CountsFaults};
ghost use Rattle.desk_base.specs.declared.error.Failed.{Failed};

use crate::error::Failed;
use crate::fault_count::FaultCount;
use std::io::Read;
use std::marker::Model;

/// A stream of bytes that can be read.
pub trait Source {
    /// The bytes that are still to come, where the source tells them.
    ghost left: { Self → Option (List ℕ) };

    /// How often a read has failed. It never falls, and stands at 2^64 - 1.
    ghost read_faults: { Self → ℕ };

    /// The source answers each call from now on.
    ghost is_steady: { Self → Type 0 };

    /// What a call may do: the source before and after it, how many bytes the buffer holds, and the answer.
    /// A type says here what it promises besides.
    ghost reads: { Self → Self → ℕ → Result ℕ Failed → Type 0 };

    /// Puts the next bytes at the front of the buffer, and answers how many there are: none only at the
    /// end. Where it fails nothing is lost.
    fn read(&mut self, buf: &mut [u8]) -> Result<usize, Failed>
        requires { 0 < length buf.old }
        ensures within { ReadsAtMost result buf.new }
        ensures bytes { ReadConsumes (left self.old) (left self.new) result buf.new }
        ensures cause { HasCause (read_faults self.old) (read_faults self.new) result }
        ensures steady { is_steady self.old → IsOk result × is_steady self.new }
        ensures reads { reads self.old self.new (length buf.old) result };
}

/// A reader of std as a source. An error of the reader is a fault.
#[derive(Debug, Drop)]
pub struct StdSource<R: Read> {
    reader: R,
    faults: FaultCount,
}

impl<R: Read> Model for StdSource<R> {
    ghost use Rattle.desk_base.specs.Counted.{Counted, counted_code};

    ghost Value = { Counted R };

    ghost coded = { counted_code R.code };

    ghost view = { λ s. record { device = s.reader; faults = s.faults } };
}

impl<R: Read> StdSource<R> {
    /// The source over this reader. Its count of faults begins at 0.
    pub fn new(reader: R) -> StdSource<R>
        ensures { result ≡ record { device = reader; faults = 0 } }
    {
        StdSource {
            reader,
            faults: FaultCount::at(0),
        }
    }
}

impl<R: Read> Source for StdSource<R> {
    ghost left = { λ s. R.remaining s.device };

    ghost read_faults = { λ s. s.faults };

    ghost is_steady = { λ _. ⊥ };

    // The count rises exactly with a fault.
    ghost reads = { λ before after _ result. CountsFaults before.faults after.faults result };

    fn read(&mut self, buf: &mut [u8]) -> Result<usize, Failed> {
        match self.reader.read(buf) {
            Ok(count) => Ok(count),
            Err(_) => {
                self.faults.rise();
                Err(Failed)
            }
        }
    }
}
