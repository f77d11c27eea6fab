//! What holds of choices and of dissents, whatever the rules and the records.
ghost use Rattle.std.specs.Prelude.{◌≡◌, ◌≢◌, ◌↔◌, ◌<◌, ℕ, Any, AllPairs, Some, length};
ghost use Rattle.fix_model.specs.Fix.{IsConflict, IsFix};
ghost use Rattle.fix_model.specs.Run.{end_of};
ghost use Rattle.fix_model.specs.States.{value_at};
ghost use Rattle.fix_engine.specs.declared.verdict.Verdict.TheVariants as verdicts;
ghost use Rattle.fix_choices.specs.Choices.{choices_between, choices_of};
ghost use Rattle.fix_choices.specs.Dissents.{dissent_at};

use fix_model::{Kit, State, Step};

/// The choices between two ends are exactly the attributes in which they differ.
pub fn choices_are_where_the_ends_differ(kit: &Kit, first: &State, second: &State)
    ensures { (attribute : ℕ) → Any (λ choice. choice.attribute ≡ attribute)
        (choices_between kit.now first.now second.now)
        ↔ ((attribute < kit.now.width)
        × (value_at kit.now first.now attribute ≢ value_at kit.now second.now attribute)) }
{}

/// They stand in the order of the attributes, each once.
pub fn choices_stand_in_order(kit: &Kit, first: &State, second: &State)
    ensures { AllPairs (λ earlier later. earlier.attribute < later.attribute)
        (choices_between kit.now first.now second.now) }
{}

/// At a conflict there is something to choose.
pub fn a_conflict_has_choices(kit: &Kit, state: &State, first: &[Step], second: &[Step])
    requires { IsConflict kit.now state.now first.now second.now }
    ensures { 0 < length (choices_of kit.now state.now first.now second.now verdicts.Conflict) }
{}

/// A dissent tells two texts that differ.
pub fn a_dissent_tells_two_texts(
    kit: &Kit,
    state: &State,
    first: &[Step],
    certain: bool,
    step: Step,
)
    requires { IsFix kit.now state.now first.now certain (Some step) }
    ensures { (dissent_at kit.now (end_of kit.now state.now first.now) step).text
        ≢ (dissent_at kit.now (end_of kit.now state.now first.now) step).other }
{}
