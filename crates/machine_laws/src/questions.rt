//! What the machine asks of the engine has an answer, by the definitions alone.
ghost use Rattle.std.specs.Prelude.{ℕ, List};
ghost use Rattle.desk_carry.specs.Changes.{AreApart, AreChanged};
ghost use Rattle.fix_model.specs.declared.state.Step.{Step as StepOf};
ghost use Rattle.fix_model.specs.Run.{IsRun, end_of};
ghost use Rattle.fix_model.specs.States.{Fits};
ghost use Rattle.fix_model.specs.Valid.{IsValid};
ghost use Rattle.fix_engine.specs.declared.verdict.Verdict.{Verdict as VerdictOf};
ghost use Rattle.fix_engine.specs.Verdicts.{IsAnswer};
ghost use Rattle.fix_explain.specs.Reasons.{IsFixed};
ghost use Rattle.machine_core.specs.Checked.{Explanation, IsExplanation};
ghost use Rattle.region_derive.specs.Derived.{AreDerived};
ghost use Rattle.region_suggest.specs.declared.suggestion.Suggestion.{Suggestion as SuggestionOf};
ghost use Rattle.region_suggest.specs.Suggestions.{IsSuggestion};

use desk_base::Grid;
use desk_words::View;
use fix_model::{Kit, Region, State, Step};

/// Every state that fits a valid kit has an answer.
pub fn every_state_has_an_answer(kit: &Kit, state: &State)
    requires valid { IsValid kit.now }
    requires fits { Fits kit.now state.now }
    ensures { (first second : List StepOf) × (verdict : VerdictOf)
        × IsAnswer kit.now state.now first second verdict }
{}

/// And a suggestion, whatever the regions are.
pub fn every_state_has_a_suggestion(kit: &Kit, state: &State, regions: &[Region])
    requires valid { IsValid kit.now }
    requires fits { Fits kit.now state.now }
    ensures { (suggestion : SuggestionOf) × IsSuggestion kit.now state.now regions.now suggestion }
{}

/// A run that fixes an attribute has an explanation: the reason, and what it uses.
pub fn every_fixed_attribute_has_an_explanation(
    kit: &Kit,
    state: &State,
    run: &[Step],
    attribute: u16,
)
    requires valid { IsValid kit.now }
    requires fits { Fits kit.now state.now }
    requires run { IsRun kit.now state.now run.now }
    requires fixed { IsFixed (end_of kit.now state.now run.now) attribute }
    ensures { (explanation : Explanation) × IsExplanation kit.now state.now run.now attribute explanation }
{}

/// A grid gives rows for attributes and columns, whatever they are.
pub fn every_grid_gives_rows(kit: &Kit, grid: &Grid, attributes: &[u16], columns: &[u16])
    requires { IsValid kit.now }
    ensures { (found : List (ℕ × List (List ℕ)))
        × AreDerived kit.now grid.now attributes.now columns.now found }
{}

/// What two views show otherwise is told, where no two cells of the first have one name.
pub fn every_change_is_told(before: &View, after: &View)
    requires { AreApart before.now.cells }
    ensures { (pairs : List (ℕ × ℕ)) × AreChanged before.now after.now pairs }
{}
