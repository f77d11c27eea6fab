//! One part of a sorted index: the entries of a triple, and the front of each one's key.
ghost use Rattle.std.specs.Prelude.{◌<◌, All, length, IfOk};
ghost use Rattle.fix_model.specs.Comparison.{row_key};
ghost use Rattle.fix_model.specs.Rules.{master_of};
ghost use Rattle.fix_model.specs.Valid.{IsValid, IsValidRule};
ghost use Rattle.master_index.specs.Fronts.{AreFronts};
ghost use Rattle.master_index.specs.Parts.{IsPartOf};

use crate::entries::entries_of;
use crate::front::row_front;
use desk_base::{List, NoMemory};
use fix_model::{Hit, Kit, Rule};
use std::alloc::Global;

/// The entries of a triple in the order of their keys, and the fronts of these. A search reads few texts, since the
/// fronts stand close together and mostly differ.
#[derive(Debug, Drop)]
pub(crate) struct Part {
    pub(crate) entries: List<Hit>,
    pub(crate) fronts: List<u64>,
}

impl Part {
    /// The part of a rule's triple.
    pub(crate) fn of(alloc: Global, kit: &Kit, rule: &Rule) -> Result<Part, NoMemory>
        requires valid { IsValid kit.now }
        requires rule_valid { IsValidRule kit.now rule.now }
        ensures { IfOk result (IsPartOf kit.now rule.now) }
    {
        let entries = entries_of(alloc, kit, rule)?;
        let fronts = fronts_of(alloc, kit, rule, entries.as_slice())?;
        Ok(Part { entries, fronts })
    }
}

/// The fronts of the keys that the entries have.
fn fronts_of(alloc: Global, kit: &Kit, rule: &Rule, entries: &[Hit]) -> Result<List<u64>, NoMemory>
    requires valid { IsValid kit.now }
    requires rule_valid { IsValidRule kit.now rule.now }
    requires rows { All (λ entry. entry.first < length (master_of kit.now rule.now).rows) entries.now }
    ensures { IfOk result (AreFronts (row_key kit.now rule.now) entries.now) }
{
    let mut fronts = List::new(alloc);
    'entries: for entry in entries {
        fronts.push(row_front(kit, rule, entry.first))?;
    }
    Ok(fronts)
}
