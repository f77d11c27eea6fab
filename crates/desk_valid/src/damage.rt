//! A damaged row.
ghost use Rattle.std.specs.Prelude.{◌≡◌};
ghost use Rattle.desk_valid.specs.declared.damage.Bad.TheVariants as bad;

use desk_base::NoMemory;
use thiserror::Error;

/// A row that is not what a row of its table has to be (`docs/tables.md`).
#[derive(Clone, Copy, Debug, PartialEq, Eq, Error)]
#[error("row {row} of table {table} is damaged")]
pub struct Damage {
    /// The number of the table, 1 to 9.
    pub table: u8,
    /// The row, counted from 1, in the last three tables through the lists of the clerks, one after the other.
    pub row: u64,
}

/// Why tables were not found to be valid.
#[derive(Clone, Copy, Debug, PartialEq, Eq, Error)]
pub enum Bad {
    /// This is the first damaged row.
    #[error("{0}")]
    Damaged(Damage),
    /// There was no memory. It may come in place of any other answer.
    #[error("there was no memory")]
    NoMemory,
}

impl From<NoMemory> for Bad {
    ghost from_gives = { λ _ result. result ≡ bad.NoMemory };

    fn from(_fault: NoMemory) -> Bad {
        Bad::NoMemory
    }
}
