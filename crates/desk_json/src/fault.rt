//! Why a body is not read.
ghost use Rattle.std.specs.Prelude.{◌≡◌};
ghost use Rattle.desk_json.specs.declared.fault.JsonFault.TheVariants as faults;

use desk_base::{NoMemory, Str};
use thiserror::Error;

/// Why a body is not read as its command.
#[derive(Debug, Drop, Error)]
pub enum JsonFault {
    /// The body is no JSON.
    #[error("the body is no JSON")]
    NotJson,
    /// This key is not there.
    #[error("a key is missing")]
    Missing(Str),
    /// The value at this key has not the form that is wanted. The key is empty where the body is no object.
    #[error("a value has not the form that is wanted")]
    WrongKind(Str),
    /// The body has this key, which is none of those that it may have.
    #[error("a key is unknown")]
    Unknown(Str),
    /// There was no memory.
    #[error("there was no memory")]
    NoMemory,
}

impl From<NoMemory> for JsonFault {
    ghost from_gives = { λ _ fault. fault ≡ faults.NoMemory };

    fn from(_want: NoMemory) -> JsonFault {
        JsonFault::NoMemory
    }
}
