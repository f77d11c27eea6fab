//! The records that clerks committed.
use desk_base::{Duplicate, List, NoMemory, Text};

/// A committed record.
#[derive(Debug, Drop)]
pub struct RecordRow {
    /// The number of the clerk's session that it came from, counted from 1.
    pub session: u32,
    /// The value of each attribute at the end of the first run.
    pub texts: List<Text>,
    /// Whether every attribute was covered.
    pub certain: bool,
}

impl Duplicate for RecordRow {
    fn copy(&self) -> Result<RecordRow, NoMemory> {
        Ok(RecordRow {
            session: self.session,
            texts: self.texts.copy()?,
            certain: self.certain,
        })
    }
}
