//! Rulebooks as stewards write them: with attributes of a schema, and the names of masters and columns.
use desk_base::{Duplicate, List, NoMemory, Text};
use fix_model::Pat;

/// One rule. Attributes are counted from 0, in the schema's order.
#[derive(Debug, Drop)]
pub struct RuleLine {
    /// The rule's name, a word.
    pub name: Text,
    /// The name of the master that the rule looks into, a word.
    pub master: Text,
    /// The attributes that are looked up, each with the column in which it is looked for.
    pub keys: List<(u16, Text)>,
    /// The attribute that is fixed.
    pub head: u16,
    /// The column that it is fixed from.
    pub from: Text,
    /// What is asked of further attributes.
    pub conds: List<(u16, Pat)>,
}

/// The rules, in their order.
#[derive(Debug, Drop)]
pub struct Rulebook {
    pub lines: List<RuleLine>,
}

impl Duplicate for RuleLine {
    fn copy(&self) -> Result<RuleLine, NoMemory> {
        let name = self.name.copy()?;
        let master = self.master.copy()?;
        let keys = self.keys.copy()?;
        let from = self.from.copy()?;
        let conds = self.conds.copy()?;
        Ok(RuleLine {
            name,
            master,
            keys,
            head: self.head,
            from,
            conds,
        })
    }
}

impl Duplicate for Rulebook {
    fn copy(&self) -> Result<Rulebook, NoMemory> {
        let lines = self.lines.copy()?;
        Ok(Rulebook { lines })
    }
}
