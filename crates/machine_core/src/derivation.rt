//! What a derivation is asked of.
use desk_base::{Grid, List};

/// The rows of a master of an edition, with attributes and as many of the master's columns.
#[derive(Debug, Drop)]
pub struct Derivation {
    /// The place of the edition, counted from 0.
    pub edition: u32,
    pub grid: Grid,
    /// The attributes by their places, none of which stands twice.
    pub attributes: List<u16>,
    /// The column of each, none of which stands twice.
    pub columns: List<u16>,
}
