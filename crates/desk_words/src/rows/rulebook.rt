//! The published rulebooks.
use desk_base::{Duplicate, List, NoMemory, Text};

/// A version of a rulebook.
#[derive(Debug, Drop)]
pub struct RulebookRow {
    pub name: Text,
    /// How many versions of the name there are up to this one.
    pub version: u32,
    /// The place of the schema over which the rules are written.
    pub schema: u32,
    /// The rules as they were published (`docs/rule-language.md`).
    pub body: List<u8>,
}

impl Duplicate for RulebookRow {
    fn copy(&self) -> Result<RulebookRow, NoMemory> {
        let name = self.name.copy()?;
        let body = self.body.copy()?;
        Ok(RulebookRow {
            name,
            version: self.version,
            schema: self.schema,
            body,
        })
    }
}
