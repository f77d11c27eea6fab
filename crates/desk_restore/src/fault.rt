//! Why a dump is not restored.
ghost use Rattle.std.specs.Prelude.{◌≡◌};
ghost use Rattle.desk_restore.specs.declared.fault.RestoreFault.TheVariants as fault;

use desk_base::NoMemory;
use thiserror::Error;

/// Why a dump is not restored.
#[derive(Clone, Copy, Debug, PartialEq, Eq, Error)]
pub enum RestoreFault {
    /// It is no dump: this line, counted from 1, is the first that differs from the dump of what was read up to there.
    #[error("line {line} of the dump is not as a dump has it")]
    Refused { line: u64 },
    /// There was no memory.
    #[error("there was no memory")]
    NoMemory,
}

impl From<NoMemory> for RestoreFault {
    ghost from_gives = { λ _ made. made ≡ fault.NoMemory };

    fn from(_want: NoMemory) -> RestoreFault {
        RestoreFault::NoMemory
    }
}
