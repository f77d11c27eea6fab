//! The contradictions of a rule, as they are shown.
use desk_base::{List, Text};

/// Two rows of a rule's master that contradict each other, counted from 1, each with the text that the rule copies from
/// it.
#[derive(Debug, Drop)]
pub struct ContradictionLine {
    pub row: u32,
    pub text: Text,
    pub other_row: u32,
    pub other_text: Text,
}

/// The contradictions of a rule, by the names of the rule, of its master and of the attribute that it fixes.
#[derive(Debug, Drop)]
pub struct ContradictionSheet {
    pub rule: Text,
    pub master: Text,
    pub attribute: Text,
    /// One for each key that has contradicting rows, in the order of their first rows.
    pub lines: List<ContradictionLine>,
}
