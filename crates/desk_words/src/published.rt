//! What is shown of what was published.
use desk_base::{List, Text};
use fix_model::RowVerdict;

/// The names of what stands, each list in the order of its table.
#[derive(Debug, Drop)]
pub struct Catalogue {
    /// Each clerk with the number of the last accepted write, or 0.
    pub clerks: List<(Text, u64)>,
    /// The number of the steward's last accepted write, or 0.
    pub last: u64,
    /// What was published, each by its name and version.
    pub schemas: List<(Text, u32)>,
    pub masters: List<(Text, u32)>,
    pub rulebooks: List<(Text, u32)>,
    pub editions: List<(Text, u32)>,
}

/// A rule by names: its own, those of the attributes of its keys in their order, that of the attribute that it fixes,
/// and that of the master that it looks into.
#[derive(Debug, Drop)]
pub struct RuleSummary {
    pub name: Text,
    pub keys: List<Text>,
    pub head: Text,
    pub master: Text,
}

/// A version of an edition, with what it was made of.
#[derive(Debug, Drop)]
pub struct EditionSheet {
    pub edition: Text,
    pub version: u32,
    /// The words of its attributes, and of those that are folded, in the attributes' order.
    pub attributes: List<Text>,
    pub folded: List<Text>,
    /// The versions of the schema, the rulebook and the masters.
    pub schema: (Text, u32),
    pub rulebook: (Text, u32),
    pub masters: List<(Text, u32)>,
    pub rules: List<RuleSummary>,
    /// How many regions it has.
    pub regions: u64,
}

/// A row of a version of a master.
#[derive(Debug, Drop)]
pub struct MasterRowSheet {
    pub master: Text,
    pub version: u32,
    /// The row, counted from 1.
    pub row: u32,
    /// Each column with its cell.
    pub cells: List<(Text, Text)>,
}

/// A region of a version of an edition.
#[derive(Debug, Drop)]
pub struct RegionSheet {
    pub edition: Text,
    pub version: u32,
    /// The region's number among those of the edition, counted from 1.
    pub region: u32,
    pub attributes: List<Text>,
    /// The rows, each with a text for each attribute, and what the rules make of each.
    pub rows: List<List<Text>>,
    pub verdicts: List<RowVerdict>,
}
