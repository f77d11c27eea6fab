//! What the desk counts against a limit.

/// What has a limit (`desk_base`, *limits*).
#[derive(Clone, Copy, Debug, PartialEq, Eq)]
pub enum Which {
    /// Clerks, without the steward.
    Clerks,
    /// Versions of schemas, of all names.
    Schemas,
    /// Versions of masters, of all names.
    Masters,
    /// Cells of all masters, without their headers.
    MasterCells,
    /// Versions of rulebooks, of all names.
    Rulebooks,
    /// Masters of one edition.
    EditionMasters,
    /// Versions of editions, of all names.
    Editions,
    /// Rows of one region.
    RegionRows,
    /// Regions of one edition.
    Regions,
    /// Active sessions of one clerk.
    ActiveSessions,
    /// Sessions of one clerk, of any stage.
    Sessions,
    /// Bytes of the typed texts and the records of one clerk.
    Bytes,
    /// Rows of one batch.
    BatchRows,
    /// Batches of one clerk.
    Batches,
}
