//! What stands in the way of a session's attributes, as it is shown.
use desk_base::{List, Text};

/// Why a rule gives its head no text.
#[derive(Debug, Drop)]
pub enum ShownBlocker {
    /// These attributes are not covered.
    Unknown(List<Text>),
    /// The condition on this attribute does not match.
    Pattern(Text),
    /// No usable row of this master agrees on the keys.
    NoRow(Text),
}

/// A rule with what stands in its way.
#[derive(Debug, Drop)]
pub struct ShownRule {
    pub rule: Text,
    pub blocker: ShownBlocker,
}

/// An attribute that is not covered, with each rule whose head it is.
#[derive(Debug, Drop)]
pub struct ShownBlocked {
    pub name: Text,
    pub rules: List<ShownRule>,
}

/// What stands in the way of each attribute of a session that is not covered at the end of its fix.
#[derive(Debug, Drop)]
pub struct Blocked {
    /// The session's number among its clerk's, counted from 1.
    pub session: u32,
    pub attributes: List<ShownBlocked>,
}
