//! What holds of the definitions, whatever the rules and the records.
ghost use Rattle.std.specs.Prelude.{◌≡◌, ◌≤◌, ◌↔◌, ◌++◌, ℕ, List, length};
ghost use Rattle.fix_model.specs.declared.state.Step.{Step as StepOf};
ghost use Rattle.fix_model.specs.Alike.{AreAlike};
ghost use Rattle.fix_model.specs.Application.{Fires};
ghost use Rattle.fix_model.specs.Plain.{IsUnfolded, FiresExactly};
ghost use Rattle.fix_model.specs.Rules.{is_folded};
ghost use Rattle.fix_model.specs.Run.{IsRun, IsMaximalRun, end_of};
ghost use Rattle.fix_model.specs.States.{Fits, IsCovered, value_at};
ghost use Rattle.fix_model.specs.Valid.{IsValid};

use crate::kit::Kit;
use crate::state::{State, Step};

/// Where no attribute is folded, two texts are alike exactly where they are equal, and a step fires
/// exactly where its row's cells equal the values and its conditions match by equality.
pub fn plain(kit: &Kit, state: &State, step: Step)
    requires { IsUnfolded kit.now }
    ensures alike { (attribute : ℕ) (one other : List ℕ)
        → AreAlike (is_folded kit.now attribute) one other ↔ (one ≡ other) }
    ensures fires { Fires kit.now state.now step ↔ FiresExactly kit.now state.now step }
{}

/// Attributes that are covered stay covered along a run, with their values.
pub fn covered_values_stay(kit: &Kit, state: &State, run: &[Step], attribute: u16)
    requires run { IsRun kit.now state.now run.now }
    requires covered { IsCovered state.now attribute }
    ensures covered { IsCovered (end_of kit.now state.now run.now) attribute }
    ensures value { value_at kit.now (end_of kit.now state.now run.now) attribute
        ≡ value_at kit.now state.now attribute }
{}

/// A run has at most as many steps as there are attributes.
pub fn runs_are_short(kit: &Kit, state: &State, run: &[Step])
    requires valid { IsValid kit.now }
    requires fits { Fits kit.now state.now }
    requires run { IsRun kit.now state.now run.now }
    ensures { length run.now ≤ kit.now.width }
{}

/// Every run is the beginning of a maximal run.
pub fn runs_go_on(kit: &Kit, state: &State, run: &[Step])
    requires valid { IsValid kit.now }
    requires fits { Fits kit.now state.now }
    requires run { IsRun kit.now state.now run.now }
    ensures { (rest : List StepOf) × IsMaximalRun kit.now state.now (run.now ++ rest) }
{}
