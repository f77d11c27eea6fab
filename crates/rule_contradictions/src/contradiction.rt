//! Two rows of a master that contradict each other.

/// Rows of a rule's master that agree on its keys, and from which the rule copies different texts, both counted from 0.
#[derive(Clone, Copy, Debug, PartialEq, Eq)]
pub struct Contradiction {
    /// The least usable row with the key.
    pub row: u32,
    /// The least row with the key that gives another text than that one.
    pub other_row: u32,
}
