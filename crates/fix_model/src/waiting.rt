//! Which rules wait for an attribute.
ghost use Rattle.std.specs.Prelude.{IsTrue};
ghost use Rattle.fix_model.specs.Valid.{IsValid};
ghost use Rattle.fix_model.specs.Waits.{IsApart, NoneWaitsBefore};

use crate::kit::{Kit, names};
use crate::rule::Rule;

/// The first rule that waits for an attribute, with it among its keys or conditions, or where none does, as many as
/// there are rules. Attributes and rules count from 0.
pub fn first_waiting(kit: &Kit, attribute: u16) -> u16
    requires { IsValid kit.now }
    ensures { NoneWaitsBefore kit.now attribute result }
{
    let count = kit.rules.len() as u16;
    'rules: for rule in 0..count {
        if !is_apart(kit.rule(rule), attribute) {
            return rule;
        }
    }
    count
}

/// Whether neither the keys nor the conditions of a rule name an attribute.
fn is_apart(rule: &Rule, attribute: u16) -> bool
    ensures { IsTrue result → IsApart attribute rule.now }
{
    !names(rule.keys.as_slice(), attribute) && !names(rule.conds.as_slice(), attribute)
}
