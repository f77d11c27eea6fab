//! A row of the SQL table.
use desk_base::List;

/// A row of the SQL table (`docs/formats.md`, *The stored tables*).
#[derive(Debug, Drop)]
pub struct PackedRow {
    /// Which list the row is of: 0 for the version, 1 to 9 for the nine tables in their order.
    pub kind: u32,
    /// The place of the clerk whose own list it is, and 0 for lists that are nobody's own.
    pub owner: u32,
    /// The place in the list, from 0.
    pub place: u32,
    /// The row's fields, packed.
    pub body: List<u8>,
}
