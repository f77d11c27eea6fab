//! What holds of blockers, whatever the rules and the records.
ghost use Rattle.std.specs.Prelude.{◌≡◌, ◌≢◌, ◌<◌, AllPairs, List, length};
ghost use Rattle.fix_model.specs.Application.{Fires};
ghost use Rattle.fix_model.specs.Rules.{rule_at};
ghost use Rattle.fix_model.specs.Run.{IsFinal};
ghost use Rattle.fix_model.specs.States.{IsCovered};
ghost use Rattle.fix_model.specs.Valid.{IsValidRule};
ghost use Rattle.fix_blockers.specs.declared.blocked_attribute.BlockedAttribute.{BlockedAttribute as AttributeOf};
ghost use Rattle.fix_blockers.specs.declared.blocker.Blocker.{Blocker as BlockerOf};
ghost use Rattle.fix_blockers.specs.Blocked.{AreBlocked};
ghost use Rattle.fix_blockers.specs.Blockers.{IsBlocker, unknown};

use crate::blocked_attribute::BlockedAttribute;
use crate::blocker::Blocker;
use fix_model::{Kit, Rule, State, Step};

/// Where nothing fires, something stands in the way of each rule whose head is not covered: nothing that could fix an
/// attribute is left out.
pub fn every_rule_of_an_uncovered_attribute_is_blocked(kit: &Kit, state: &State, place: u16)
    requires within { place < length kit.now.rules }
    requires ended { IsFinal kit.now state.now }
    requires uncovered { ¬ IsCovered state.now (rule_at kit.now place).head }
    ensures { (blocker : BlockerOf) × IsBlocker kit.now state.now (rule_at kit.now place) blocker }
{}

/// Only one thing does.
pub fn one_blocker(kit: &Kit, state: &State, rule: &Rule, blocker: &Blocker, other: &Blocker)
    requires blocker { IsBlocker kit.now state.now rule.now blocker.now }
    requires other { IsBlocker kit.now state.now rule.now other.now }
    ensures { blocker.now ≡ other.now }
{}

/// What is told to stand in the way does: no step of the rule fires.
pub fn a_blocked_rule_does_not_fire(kit: &Kit, state: &State, blocker: &Blocker, step: Step)
    requires { IsBlocker kit.now state.now (rule_at kit.now step.rule) blocker.now }
    ensures { ¬ Fires kit.now state.now step }
{}

/// No attribute is told twice as unknown.
pub fn no_attribute_is_unknown_twice(kit: &Kit, state: &State, rule: &Rule)
    requires { IsValidRule kit.now rule.now }
    ensures { AllPairs (λ attribute later. attribute ≢ later) (unknown state.now rule.now) }
{}

/// There is one such list at most.
pub fn one_list(kit: &Kit, state: &State, blocked: &[BlockedAttribute], other: &[BlockedAttribute])
    requires blocked { AreBlocked kit.now state.now blocked.now }
    requires other { AreBlocked kit.now state.now other.now }
    ensures { blocked.now ≡ other.now }
{}

/// Where nothing fires there is one: `blocked` finds it where there is memory.
pub fn every_end_has_a_list(kit: &Kit, state: &State)
    requires { IsFinal kit.now state.now }
    ensures { (blocked : List AttributeOf) × AreBlocked kit.now state.now blocked }
{}
