//! Why a value is not read.
ghost use Rattle.std.specs.Prelude.{◌≡◌};
ghost use Rattle.json_parts.specs.declared.fault.PartFault.TheVariants as faults;

use desk_base::NoMemory;
use thiserror::Error;

/// Why a value is not read as a part.
#[derive(Clone, Copy, Debug, PartialEq, Eq, Error)]
pub enum PartFault {
    /// The value has not the form of the part.
    #[error("the value has not the form that is wanted")]
    WrongForm,
    /// There was no memory.
    #[error("there was no memory")]
    NoMemory,
}

impl From<NoMemory> for PartFault {
    ghost from_gives = { λ _ fault. fault ≡ faults.NoMemory };

    fn from(_want: NoMemory) -> PartFault {
        PartFault::NoMemory
    }
}
