//! The published editions: a rulebook with the masters that its rules look into.
use desk_base::{Duplicate, List, NoMemory, Text};

/// A version of an edition. A session is pinned to one.
#[derive(Debug, Drop)]
pub struct EditionRow {
    pub name: Text,
    /// How many versions of the name there are up to this one.
    pub version: u32,
    /// The place of the rulebook.
    pub rulebook: u32,
    /// The places of the masters, each of another name.
    pub masters: List<u32>,
    /// The attributes that keys and conditions compare without regard to ASCII case, from 0 and ascending.
    pub folded: List<u16>,
}

impl Duplicate for EditionRow {
    fn copy(&self) -> Result<EditionRow, NoMemory> {
        let name = self.name.copy()?;
        let masters = self.masters.copy()?;
        let folded = self.folded.copy()?;
        Ok(EditionRow {
            name,
            version: self.version,
            rulebook: self.rulebook,
            masters,
            folded,
        })
    }
}
