//! Why some bytes are no schema.
ghost use Rattle.std.specs.Prelude.{◌≡◌};
ghost use Rattle.schema_core.specs.declared.fault.SchemaFault.TheVariants as fault;

use desk_base::NoMemory;
use std::alloc::AllocFailed;
use thiserror::Error;

/// Why some bytes are no schema: the first test that they fail.
///
/// The tests come in the order in which the faults stand here. The attributes are tested last, one after
/// the other, each for its form and then against those before it. A key is 1 for `name` and 2 for
/// `attributes`; an attribute's position is counted from 1.
#[derive(Clone, Copy, Debug, PartialEq, Eq, Error)]
pub enum SchemaFault {
    /// They are not UTF-8, or no TOML document.
    #[error("the text is no TOML")]
    NotToml,
    /// There is another key than the two.
    #[error("there is another key than `name` and `attributes`")]
    UnknownKey,
    /// The key is not there. Both keys are looked for before any value is looked at.
    #[error("key {0} of `name` and `attributes` is missing")]
    MissingKey(u64),
    /// The value at the key is no string, or no array of strings.
    #[error("the value at key {0} of `name` and `attributes` is of another kind")]
    WrongKind(u64),
    /// The name, at position 0, is no name, or the attribute at the position is no word.
    #[error("the name, or the attribute at its position, has not its form: {0}")]
    BadName(u64),
    /// There are so many attributes: none, or more than 48.
    #[error("there are {0} attributes")]
    BadCount(u64),
    /// The attribute at the position is a word, and equals an earlier one.
    #[error("attribute {0} equals an earlier one")]
    Twice(u64),
    /// There was no memory. It may come in place of any other answer.
    #[error("there was no memory for a schema")]
    NoMemory,
}

impl From<NoMemory> for SchemaFault {
    ghost from_gives = { λ _ result. result ≡ fault.NoMemory };

    fn from(_want: NoMemory) -> SchemaFault {
        SchemaFault::NoMemory
    }
}

impl<T: Drop> From<AllocFailed<T>> for SchemaFault {
    ghost from_gives = { λ _ result. result ≡ fault.NoMemory };

    fn from(_refused: AllocFailed<T>) -> SchemaFault {
        SchemaFault::NoMemory
    }
}
