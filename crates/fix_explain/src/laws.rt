//! What holds of reasons and of their uses, whatever the rules and the records.
ghost use Rattle.std.specs.Prelude.{◌≡◌, ◌<◌, ℕ, List, [], ◌∷◌, ◌++◌, Contains, length, map};
ghost use Rattle.std.specs.List.{remove};
ghost use Rattle.fix_model.specs.declared.state.Step.{Step as StepOf};
ghost use Rattle.fix_model.specs.Regions.{ConfirmsExactly};
ghost use Rattle.fix_model.specs.Run.{end_of, IsRun};
ghost use Rattle.fix_model.specs.States.{Fits, IsCovered, cell_at, value_at};
ghost use Rattle.fix_model.specs.Valid.{IsValid};
ghost use Rattle.fix_explain.specs.Reasons.{Fixes, IsFixed, IsReason};
ghost use Rattle.fix_explain.specs.Uses.{AreUses};

use fix_model::{Cell, Kit, State, Step};

/// A run that fixes an attribute has a reason for it: `reason` finds it where there is memory.
pub fn every_fixed_attribute_has_a_reason(kit: &Kit, state: &State, run: &[Step], attribute: u16)
    requires valid { IsValid kit.now }
    requires fits { Fits kit.now state.now }
    requires run { IsRun kit.now state.now run.now }
    requires fixed { IsFixed (end_of kit.now state.now run.now) attribute }
    ensures { (reason : List StepOf) × IsReason kit.now state.now run.now attribute reason }
{}

/// There is one reason at most.
pub fn one_reason(
    kit: &Kit,
    state: &State,
    run: &[Step],
    attribute: u16,
    reason: &[Step],
    other: &[Step],
)
    requires reason { IsReason kit.now state.now run.now attribute reason.now }
    requires other { IsReason kit.now state.now run.now attribute other.now }
    ensures { reason.now ≡ other.now }
{}

/// Without any one of its steps a reason is no run from the state, or does not fix the attribute.
pub fn no_step_can_be_left_out(
    kit: &Kit,
    state: &State,
    run: &[Step],
    attribute: u16,
    reason: &[Step],
    place: usize,
)
    requires reason { IsReason kit.now state.now run.now attribute reason.now }
    requires within { place < length reason.now }
    ensures { ¬ Fixes kit.now state.now attribute (remove reason.now place) }
{}

/// A reason ends in the step that fixes the attribute in the run, and gives it the same cell.
pub fn a_reason_ends_in_the_step_that_fixes(
    kit: &Kit,
    state: &State,
    run: &[Step],
    attribute: u16,
    reason: &[Step],
    step: Step,
)
    requires valid { IsValid kit.now }
    requires fits { Fits kit.now state.now }
    requires unfixed { ¬ IsFixed state.now attribute }
    requires run { IsRun kit.now state.now run.now }
    requires reason { IsReason kit.now state.now run.now attribute reason.now }
    requires step { cell_at (end_of kit.now state.now run.now) attribute ≡ Cell.Fixed step }
    ensures last { (front : List StepOf) × (reason.now ≡ front ++ step ∷ []) }
    ensures cell { cell_at (end_of kit.now state.now reason.now) attribute ≡ Cell.Fixed step }
{}

/// It is enough to confirm what the reason uses: from each state that has exactly these attributes confirmed, to the
/// same texts, the reason is a run that fixes the attribute, with the value that the whole run gives it. Whatever is
/// typed elsewhere changes nothing.
pub fn uses_are_enough(
    kit: &Kit,
    state: &State,
    run: &[Step],
    attribute: u16,
    reason: &[Step],
    uses: &[u16],
    narrow: &State,
)
    requires valid { IsValid kit.now }
    requires fits { Fits kit.now state.now }
    requires unfixed { (one : ℕ) → ¬ IsFixed state.now one }
    requires run { IsRun kit.now state.now run.now }
    requires reason { IsReason kit.now state.now run.now attribute reason.now }
    requires uses { AreUses kit.now state.now reason.now uses.now }
    requires narrow_fits { Fits kit.now narrow.now }
    requires confirms { ConfirmsExactly kit.now uses.now (map (value_at kit.now state.now) uses.now) narrow.now }
    ensures fixes { Fixes kit.now narrow.now attribute reason.now }
    ensures value { value_at kit.now (end_of kit.now narrow.now reason.now) attribute
        ≡ value_at kit.now (end_of kit.now state.now run.now) attribute }
{}

/// Nothing that steps use can be left out: where one of their uses is not covered the steps are no run, whatever else
/// is confirmed or typed there.
pub fn no_use_can_be_left_out(
    kit: &Kit,
    state: &State,
    steps: &[Step],
    uses: &[u16],
    attribute: u16,
    other: &State,
)
    requires run { IsRun kit.now state.now steps.now }
    requires uses { AreUses kit.now state.now steps.now uses.now }
    requires used { Contains uses.now attribute }
    requires uncovered { ¬ IsCovered other.now attribute }
    ensures { ¬ IsRun kit.now other.now steps.now }
{}
