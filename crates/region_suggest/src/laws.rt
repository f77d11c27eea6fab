//! What holds of regions and of hope, whatever the rules and the records.
ghost use Rattle.std.specs.Prelude.{◌<◌, ◌≢◌, ℕ, List, All, Contains, true};
ghost use Rattle.fix_model.specs.declared.state.Step.{Step as StepOf};
ghost use Rattle.std.specs.declared.option.Option.{Option as OptionOf};
ghost use Rattle.fix_model.specs.Fix.{HasFix, IsFix};
ghost use Rattle.fix_model.specs.Regions.{ConfirmsExactly, IsRowVerdict, row_state};
ghost use Rattle.fix_model.specs.Run.{IsRun, end_of};
ghost use Rattle.fix_model.specs.States.{Fits, IsCovered};
ghost use Rattle.fix_model.specs.Valid.{IsValid};
ghost use Rattle.region_suggest.specs.Hope.{AreAllHoped, ConfirmsMore};
ghost use Rattle.region_suggest.specs.Need.{IsNeed};

use desk_base::Text;
use fix_model::{Kit, RowVerdict, State, Step};

/// A region row whose verdict is certain promises a certain fix: every state that has exactly the region's
/// attributes confirmed, to the row's texts, has one with the same first run, whatever is typed elsewhere.
pub fn a_certain_row_promises_a_certain_fix(
    kit: &Kit,
    attributes: &[u16],
    texts: &[Text],
    state: &State,
)
    requires valid { IsValid kit.now }
    requires fits { Fits kit.now state.now }
    requires certain { IsRowVerdict kit.now attributes.now texts.now RowVerdict.Certain }
    requires confirms { ConfirmsExactly kit.now attributes.now texts.now state.now }
    ensures { (first : List StepOf) × (dissent : OptionOf StepOf)
        × IsFix kit.now (row_state kit.now.width attributes.now texts.now) first true dissent
        × IsFix kit.now state.now first true dissent }
{}

/// The hoped closure is sound. Let attributes be uncovered after a run. Where confirming them at the state before
/// it, to whatever texts, gives a certain fix, their hoped closure at the end of the run is all attributes. The run
/// may be any, so also the first run of a fix.
pub fn hope_is_sound(kit: &Kit, state: &State, run: &[Step], attributes: &[u16], confirmed: &State)
    requires valid { IsValid kit.now }
    requires fits { Fits kit.now state.now }
    requires run { IsRun kit.now state.now run.now }
    requires uncovered { All (λ attribute. ¬ IsCovered (end_of kit.now state.now run.now) attribute) attributes.now }
    requires confirmed_fits { Fits kit.now confirmed.now }
    requires confirms { ConfirmsMore state.now confirmed.now attributes.now }
    requires certain { HasFix kit.now confirmed.now true }
    ensures { AreAllHoped kit.now (end_of kit.now state.now run.now) (Contains attributes.now) }
{}

/// The hoped closure of the need is all attributes.
pub fn need_is_enough(kit: &Kit, state: &State, need: &[u16])
    requires valid { IsValid kit.now }
    requires need { IsNeed kit.now state.now need.now }
    ensures { AreAllHoped kit.now state.now (Contains need.now) }
{}

/// Without any one of its members the hoped closure of the need is not all attributes.
pub fn nothing_needed_can_be_left_out(kit: &Kit, state: &State, need: &[u16], attribute: u16)
    requires valid { IsValid kit.now }
    requires need { IsNeed kit.now state.now need.now }
    requires needed { Contains need.now attribute }
    ensures { ¬ AreAllHoped kit.now state.now (λ other. Contains need.now other × (other ≢ attribute)) }
{}
