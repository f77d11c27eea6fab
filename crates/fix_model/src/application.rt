//! Whether a rule may be applied with a master row.
ghost use Rattle.std.specs.Prelude.{◌<◌, ◌↔◌, length, IsTrue};
ghost use Rattle.fix_model.specs.Application.{Fires, RowAgreesAt};
ghost use Rattle.fix_model.specs.Hit.{covered_keys};
ghost use Rattle.fix_model.specs.Rules.{master_of};
ghost use Rattle.fix_model.specs.States.{Fits, value_at};
ghost use Rattle.fix_model.specs.Valid.{IsValid, IsValidRule};

use crate::book::enabled;
use crate::kit::Kit;
use crate::lent_book::LentBook;
use crate::rows::Sought;
use crate::rule::Rule;
use crate::state::{State, Step};

/// Whether the step may be made: its row is usable for its rule, the rule's keys and conditions are
/// covered and its head is not, each condition matches, and the row agrees with the values at the keys.
/// A step that the kit does not have may not.
pub fn fires(kit: &Kit, state: &State, step: Step) -> bool
    requires valid { IsValid kit.now }
    requires fits { Fits kit.now state.now }
    ensures { IsTrue result ↔ Fires kit.now state.now step }
{
    if usize::from(step.rule) >= kit.rules.len() {
        return false;
    }
    let rule = kit.rule(step.rule);
    if state.covers(rule.head) {
        return false;
    }
    enabled::<(), LentBook>(&kit.lend(), state, rule)
        && agrees_where_covered(kit, state, rule, step.row)
}

/// Whether the row is usable, and agrees with the values at those keys of the rule that are covered.
fn agrees_where_covered(kit: &Kit, state: &State, rule: &Rule, row: u32) -> bool
    requires valid { IsValid kit.now }
    requires rule_valid { IsValidRule kit.now rule.now }
    requires fits { Fits kit.now state.now }
    ensures { IsTrue result
        ↔ RowAgreesAt kit.now (value_at kit.now state.now) rule.now (covered_keys state.now rule.now) row }
{
    let master = kit.master(rule);
    if row >= master.rows() {
        return false;
    }
    Sought::at(kit, state, rule).agrees(master, rule, row)
}
