//! What stands in the way of a rule.
use desk_base::List;

/// Why a rule gives its head no text. Attributes count from 0.
#[derive(Debug, Drop)]
pub enum Blocker {
    /// These attributes of its keys and conditions are not covered: keys first, none twice.
    Unknown(List<u16>),
    /// All are covered, and the first condition that does not match is at this attribute.
    Pattern(u16),
    /// All are covered and match, and no usable row of the master agrees on the keys.
    NoRow,
}
