//! The order of a master's row and a record by the texts at the keys of a rule.
ghost use Rattle.std.specs.Prelude.{◌≡◌, ◌+◌, ◌-◌, ◌^◌, ◌<◌, length, min};
ghost use Rattle.fix_model.specs.Comparison.{key_order, row_key, sought_key};
ghost use Rattle.fix_model.specs.Rules.{master_of, rule_at};
ghost use Rattle.fix_model.specs.States.{Fits, value_at};
ghost use Rattle.fix_model.specs.Valid.{IsValid, IsValidRule};

use crate::comparison::text_order;
use crate::kit::Kit;
use crate::rule::Rule;
use crate::state::State;
use desk_base::Steps;
use std::cmp::Ordering;

/// The order of a row of the rule's master and the record, by the row's cells and the record's values at
/// the rule's keys, key by key. It counts one comparison, and succeeds whatever memory there is.
pub fn compare<L>(kit: &Kit, rule: u16, row: u32, state: &State, counts: &mut Steps<L>) -> Ordering
    requires valid { IsValid kit.now }
    requires rule_within { rule < length kit.now.rules }
    requires row_within { row < length (master_of kit.now (rule_at kit.now rule)).rows }
    requires fits { Fits kit.now state.now }
    ensures order { result ≡ key_order (row_key kit.now (rule_at kit.now rule) row)
        (sought_key kit.now (value_at kit.now state.now) (rule_at kit.now rule)) }
    ensures compares { counts.new ≡ record counts.old { compares = min (counts.old.compares + 1) (2 ^ 64 - 1) } }
{
    counts.compare();
    order_at_keys(kit, kit.rule(rule), row, state)
}

fn order_at_keys(kit: &Kit, rule: &Rule, row: u32, state: &State) -> Ordering
    requires valid { IsValid kit.now }
    requires rule_valid { IsValidRule kit.now rule.now }
    requires row_within { row < length (master_of kit.now rule.now).rows }
    requires fits { Fits kit.now state.now }
    ensures { result ≡ key_order (row_key kit.now rule.now row)
        (sought_key kit.now (value_at kit.now state.now) rule.now) }
{
    let master = kit.master(rule);
    'keys: for key in rule.keys.as_slice() {
        let cell = master.cell(row, key.1);
        let text = kit.value(state, key.0);
        let order = text_order(cell, text, kit.folds(key.0));
        if order.is_ne() {
            return order;
        }
    }
    Ordering::Equal
}
