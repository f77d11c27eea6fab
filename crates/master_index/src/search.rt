//! The search for the entry of a record's values.
ghost use Rattle.std.specs.Prelude.{◌≡◌, ◌<◌, ◌≤◌, length};
ghost use Rattle.fix_model.specs.Hit.{IsFound};
ghost use Rattle.fix_model.specs.Rules.{master_of, rule_at};
ghost use Rattle.fix_model.specs.States.{Fits, value_at};
ghost use Rattle.fix_model.specs.Valid.{IsValid};
ghost use Rattle.master_index.specs.Counts.{RisesByDigits};
ghost use Rattle.master_index.specs.Parts.{IsPartOf};

use crate::equal_range::equal_range;
use crate::front::sought_front;
use crate::part::Part;
use desk_base::Steps;
use fix_model::{Hit, Kit, State, compare};
use std::cmp::Ordering;

/// The entry whose key the record has at the keys of a rule. It is one of those whose front is the record's, and each
/// comparison halves those that are left.
pub(crate) fn entry_at<L>(
    kit: &Kit,
    rule: u16,
    part: &Part,
    state: &State,
    counts: &mut Steps<L>,
) -> Option<Hit>
    requires valid { IsValid kit.now }
    requires rule_within { rule < length kit.now.rules }
    requires part { IsPartOf kit.now (rule_at kit.now rule) part.now }
    requires fits { Fits kit.now state.now }
    ensures found { IsFound kit.now (value_at kit.now state.now) (rule_at kit.now rule) result }
    ensures looks { counts.new.looks ≡ counts.old.looks }
    ensures rises { counts.old.compares ≤ counts.new.compares }
    ensures digits { RisesByDigits (length (master_of kit.now (rule_at kit.now rule)).rows) counts.old counts.new }
{
    // So that a clause knows that the count fits its type.
    let _made = counts.compares();
    let entries = part.entries.as_slice();
    let sought = sought_front(kit, kit.rule(rule), state);
    let (mut low, mut high) = equal_range(part.fronts.as_slice(), sought);
    'halves: while low < high {
        let middle = low + (high - low) / 2;
        match compare(kit, rule, entries[middle].first, state, counts) {
            Ordering::Less => low = middle + 1,
            Ordering::Equal => return Some(entries[middle]),
            Ordering::Greater => high = middle,
        }
    }
    None
}
