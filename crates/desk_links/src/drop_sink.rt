//! A sink that drops what it takes.
ghost use Rattle.std.specs.Prelude.{◌≡◌, None, Ok, ⊤};

use desk_base::{Failed, Sink};

/// A sink that takes each piece whole and drops it. It never fails, and tells nothing of what was written.
#[derive(Clone, Copy, Debug, Drop)]
pub struct DropSink;

impl Sink for DropSink {
    ghost written = { λ _. None };

    ghost write_faults = { λ _. 0 };

    ghost takes = { λ _ _. ⊤ };

    // The whole piece is taken.
    ghost writes = { λ _ _ size result. result ≡ Ok size };

    fn write(&mut self, piece: &[u8]) -> Result<usize, Failed> {
        Ok(piece.len())
    }
}
