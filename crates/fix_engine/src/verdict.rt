//! What is said of the order of applications.
use fix_model::Step;

/// Whether the order of applications matters.
#[derive(Clone, Copy, Debug, PartialEq, Eq)]
pub enum Verdict {
    /// It does not: every maximal run ends in the record in which the first run ends.
    Fix {
        /// Whether that end covers every attribute.
        certain: bool,
        /// The least step that would give a covered attribute another value there, or none.
        dissent: Option<Step>,
    },
    /// It does: some maximal run ends in another record.
    Conflict,
}
