//! What stands in the way of an attribute.
use crate::blocker::Blocker;
use desk_base::List;

/// A rule, counted from 0, with what stands in its way.
#[derive(Debug, Drop)]
pub struct BlockedRule {
    pub rule: u16,
    pub blocker: Blocker,
}

/// An attribute that is not covered, counted from 0, with each rule whose head it is; none where no rule has it.
#[derive(Debug, Drop)]
pub struct BlockedAttribute {
    pub attribute: u16,
    pub rules: List<BlockedRule>,
}
