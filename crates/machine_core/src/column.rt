//! A column of a batch.

/// An attribute that a column of a batch gives, counted from 0, and whether its cells are confirmed.
#[derive(Clone, Copy, Debug, PartialEq, Eq)]
pub struct Column {
    pub attribute: u16,
    pub confirms: bool,
}
