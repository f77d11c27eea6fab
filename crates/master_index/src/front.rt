//! The fronts of keys: the first bytes of the first text of a key, as a number. Keys whose fronts differ are in the
//! order of these.
ghost use Rattle.std.specs.Prelude.{◌≡◌, ◌<◌, length};
ghost use Rattle.fix_model.specs.Alike.{compared};
ghost use Rattle.fix_model.specs.Comparison.{row_key, sought_key};
ghost use Rattle.fix_model.specs.Rules.{master_of};
ghost use Rattle.fix_model.specs.States.{Fits, value_at};
ghost use Rattle.fix_model.specs.Valid.{IsValid, IsValidRule};
ghost use Rattle.master_index.specs.Fronts.{IsFront, IsKeyFront};

use fix_model::{Kit, Rule, State};

/// The front of the key that a row of the rule's master has.
pub(crate) fn row_front(kit: &Kit, rule: &Rule, row: u32) -> u64
    requires valid { IsValid kit.now }
    requires rule_valid { IsValidRule kit.now rule.now }
    requires row_within { row < length (master_of kit.now rule.now).rows }
    ensures { IsKeyFront (row_key kit.now rule.now row) result }
{
    let key = rule.keys.as_slice()[0];
    front_of(kit.master(rule).cell(row, key.1), kit.folds(key.0))
}

/// The front of the key that is sought for the record.
pub(crate) fn sought_front(kit: &Kit, rule: &Rule, state: &State) -> u64
    requires valid { IsValid kit.now }
    requires rule_valid { IsValidRule kit.now rule.now }
    requires fits { Fits kit.now state.now }
    ensures { IsKeyFront (sought_key kit.now (value_at kit.now state.now) rule.now) result }
{
    let key = rule.keys.as_slice()[0];
    front_of(kit.value(state, key.0), kit.folds(key.0))
}

/// The front of a text as it is compared, with its ASCII case or without.
fn front_of(text: &str, folded: bool) -> u64
    ensures { IsFront (compared folded text.now) result }
{
    let bytes = text.as_bytes();
    let size = bytes.len().min(8);
    let mut first = [0; 8];
    first[..size].copy_from_slice(&bytes[..size]);
    if folded {
        first.make_ascii_lowercase();
    }
    u64::from_be_bytes(first)
}
