//! Which rules of a kit share one look.
ghost use Rattle.std.specs.Prelude.{◌≡◌, ◌<◌, ◌↔◌, length, IsTrue};
ghost use Rattle.fix_model.specs.Hit.{HaveSameLook, SharesLook};

use crate::kit::Kit;
use crate::rule::Rule;

/// The first rule that shares the look of a rule, among those without conditions: one with the same keys, master and
/// `from`, or the rule itself. Rules count from 0.
pub fn earliest_for(kit: &Kit, rule: u16) -> u16
    requires { rule < length kit.now.rules }
    ensures { SharesLook kit.now rule result }
{
    'rules: for earlier in 0..rule {
        if have_same_look(kit.rule(rule), kit.rule(earlier)) {
            return earlier;
        }
    }
    rule
}

/// Whether two rules have no conditions, and the same keys, master and `from`.
fn have_same_look(rule: &Rule, other: &Rule) -> bool
    ensures { IsTrue result → HaveSameLook rule.now other.now }
{
    rule.master == other.master
        && rule.from == other.from
        && rule.conds.is_empty()
        && other.conds.is_empty()
        && have_same_keys(rule, other)
}

fn have_same_keys(rule: &Rule, other: &Rule) -> bool
    ensures { IsTrue result ↔ (rule.now.keys ≡ other.now.keys) }
{
    rule.keys.as_slice() == other.keys.as_slice()
}
