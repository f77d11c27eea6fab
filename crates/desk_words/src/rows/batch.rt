//! The batches that clerks entered.
use desk_base::{Duplicate, NoMemory};

/// A batch: sessions that were entered by one request.
#[derive(Clone, Copy, Debug, PartialEq, Eq)]
pub struct BatchRow {
    /// The place of the edition.
    pub edition: u32,
    /// The number of the clerk's session that is the first of the batch, counted from 1; of a batch without rows
    /// the number that the clerk's next session would have had.
    pub first: u32,
    /// How many sessions there are.
    pub count: u32,
}

impl Duplicate for BatchRow {
    fn copy(&self) -> Result<BatchRow, NoMemory> {
        Ok(*self)
    }
}
