//! The published schemas and masters: both are a text under a name.
use desk_base::{Duplicate, List, NoMemory, Text};

/// A version of a schema or of a master.
#[derive(Debug, Drop)]
pub struct TextRow {
    pub name: Text,
    /// How many versions of the name its table has up to this one.
    pub version: u32,
    /// The schema (`docs/formats.md`, *Schemas*) or the sheet (*Sheets*) as it was published.
    pub body: List<u8>,
}

impl Duplicate for TextRow {
    fn copy(&self) -> Result<TextRow, NoMemory> {
        let name = self.name.copy()?;
        let body = self.body.copy()?;
        Ok(TextRow {
            name,
            version: self.version,
            body,
        })
    }
}
