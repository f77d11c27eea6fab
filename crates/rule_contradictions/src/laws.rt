//! What holds of contradictions, whatever the rules and the masters are.
ghost use Rattle.std.specs.Prelude.{◌≡◌, ◌<◌, [], List, Any, length};
ghost use Rattle.fix_model.specs.Application.{Fires};
ghost use Rattle.fix_model.specs.Rules.{rule_at, step_text};
ghost use Rattle.rule_contradictions.specs.declared.contradiction.Contradiction.{Contradiction as ContradictionOf};
ghost use Rattle.rule_contradictions.specs.Contradictions.{AgreeOnKeys, AreContradictions, Contradict};

use crate::contradiction::Contradiction;
use fix_model::{Kit, Rule, State, Step};

/// A rule without contradictions never gives two texts for one attribute: any two of its steps that can be applied to
/// one record copy equal texts.
pub fn no_contradiction_no_two_texts(kit: &Kit, state: &State, step: Step, other: Step)
    requires none { AreContradictions kit.now (rule_at kit.now step.rule) [] }
    requires fires { Fires kit.now state.now step }
    requires other_fires { Fires kit.now state.now other }
    requires by_one_rule { other.rule ≡ step.rule }
    ensures { step_text kit.now step ≡ step_text kit.now other }
{}

/// No contradiction is missed: where two rows contradict each other, the list has their key.
pub fn every_contradiction_is_told(
    kit: &Kit,
    rule: &Rule,
    row: u32,
    other: u32,
    found: &[Contradiction],
)
    requires contradict { Contradict kit.now rule.now row other }
    requires found { AreContradictions kit.now rule.now found.now }
    ensures { Any (λ it. AgreeOnKeys kit.now rule.now it.row row) found.now }
{}

/// Every rule has its list of contradictions: `contradictions` finds it where there is memory.
pub fn every_rule_has_a_list(kit: &Kit, rule: &Rule)
    ensures { (found : List ContradictionOf) × AreContradictions kit.now rule.now found }
{}
