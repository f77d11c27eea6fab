//! Editing rules.
use crate::pattern::Pat;
use desk_base::{Duplicate, List, NoMemory};

/// An editing rule: where a master row agrees with the record at the keys, and the conditions hold, the
/// head gets the row's text in the column `from`. All places count from 0.
#[derive(Debug, Drop)]
pub struct Rule {
    /// Pairs of an attribute and the master column that it has to agree with.
    pub keys: List<(u16, u16)>,
    /// The attribute that is fixed.
    pub head: u16,
    /// The master column that fixes it.
    pub from: u16,
    /// The master among those of the kit.
    pub master: u16,
    /// Pairs of an attribute and the pattern that it has to match.
    pub conds: List<(u16, Pat)>,
}

impl Duplicate for Rule {
    fn copy(&self) -> Result<Rule, NoMemory> {
        Ok(Rule {
            keys: self.keys.copy()?,
            head: self.head,
            from: self.from,
            master: self.master,
            conds: self.conds.copy()?,
        })
    }
}
