//! The published regions.
use desk_base::{Duplicate, NoMemory};
use fix_model::Region;

/// A region of an edition.
#[derive(Debug, Drop)]
pub struct RegionRow {
    /// The place of the edition.
    pub edition: u32,
    pub region: Region,
}

impl Duplicate for RegionRow {
    fn copy(&self) -> Result<RegionRow, NoMemory> {
        Ok(RegionRow {
            edition: self.edition,
            region: self.region.copy()?,
        })
    }
}
