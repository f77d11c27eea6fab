//! What holds of the order of applications, whatever the rules and the records.
ghost use Rattle.std.specs.Prelude.{◌≡◌, ◌↔◌, ◌<◌, ℕ, Bool, List, true, Some, None};
ghost use Rattle.fix_model.specs.declared.state.Step.{Step as StepOf};
ghost use Rattle.fix_model.specs.FirstRun.{IsFirstRun};
ghost use Rattle.fix_model.specs.Fix.{Dissents, EndAlike, IsConflict, IsDissent, IsFix, IsSecondRun};
ghost use Rattle.fix_model.specs.Obeys.{Obeys, RecordAgrees, text_at};
ghost use Rattle.fix_model.specs.Run.{IsMaximalRun, end_of};
ghost use Rattle.fix_model.specs.States.{Fits, IsCovered, record_of, value_at};
ghost use Rattle.fix_model.specs.Valid.{IsValid};
ghost use Rattle.fix_engine.specs.declared.verdict.Verdict.{Verdict as VerdictOf};
ghost use Rattle.fix_engine.specs.declared.verdict.Verdict.TheVariants as verdicts;
ghost use Rattle.fix_engine.specs.Verdicts.{IsAnswer};
ghost use Rattle.fix_engine.specs.WorkSeen.{IsRoomFor};

use crate::deciding::decide;
use crate::verdict::Verdict;
use crate::work::Work;
use desk_base::{Steps, Text};
use fix_model::{Book, Kit, State, Step};

/// There is one first run at most.
pub fn one_first_run(kit: &Kit, state: &State, run: &[Step], other: &[Step])
    requires run { IsFirstRun kit.now state.now run.now }
    requires other { IsFirstRun kit.now state.now other.now }
    ensures { run.now ≡ other.now }
{}

/// There is one second run at most.
pub fn one_second_run(kit: &Kit, state: &State, first: &[Step], run: &[Step], other: &[Step])
    requires run { IsSecondRun kit.now state.now first.now run.now }
    requires other { IsSecondRun kit.now state.now first.now other.now }
    ensures { run.now ≡ other.now }
{}

/// There is one dissent at most: no two steps, and no step where there is none.
pub fn one_dissent(kit: &Kit, state: &State, dissent: Option<Step>, other: Option<Step>)
    requires dissent { IsDissent kit.now state.now dissent }
    requires other { IsDissent kit.now state.now other }
    ensures { dissent ≡ other }
{}

/// Where there is a unique fix, there is no conflict.
pub fn no_conflict_where_a_fix_is_unique(
    kit: &Kit,
    state: &State,
    first: &[Step],
    certain: bool,
    dissent: Option<Step>,
)
    requires { IsFix kit.now state.now first.now certain dissent }
    ensures { (run other : List StepOf) → ¬ IsConflict kit.now state.now run other }
{}

/// There is one answer at most, whatever is asked: `decide` finds it.
pub fn one_answer(
    kit: &Kit,
    state: &State,
    first: &[Step],
    second: &[Step],
    verdict: Verdict,
    other_first: &[Step],
    other_second: &[Step],
    other: Verdict,
)
    requires answer { IsAnswer kit.now state.now first.now second.now verdict }
    requires other { IsAnswer kit.now state.now other_first.now other_second.now other }
    ensures first { first.now ≡ other_first.now }
    ensures second { second.now ≡ other_second.now }
    ensures verdict { verdict ≡ other }
{}

/// Every state has an answer: it is the one that `decide` gives whoever has room for the kit.
pub fn every_state_has_an_answer<L, B: Book<L>>(
    work: &mut Work,
    book: &B,
    state: &mut State,
    counts: &mut Steps<L>,
)
    requires fits { Fits (B.kit book.now) state.old }
    requires room { IsRoomFor work.old (B.kit book.now) }
    ensures { (first second : List StepOf) × (verdict : VerdictOf)
        × IsAnswer (B.kit book.now) state.old first second verdict }
{
    let _ = decide(work, book, state, counts);
}

/// Maximal runs that end in one record cover the same attributes.
pub fn one_record_covers_alike(kit: &Kit, state: &State, run: &[Step], other: &[Step])
    requires valid { IsValid kit.now }
    requires fits { Fits kit.now state.now }
    requires run { IsMaximalRun kit.now state.now run.now }
    requires other { IsMaximalRun kit.now state.now other.now }
    requires alike { EndAlike kit.now state.now run.now other.now }
    ensures { (attribute : ℕ) → IsCovered (end_of kit.now state.now run.now) attribute
        ↔ IsCovered (end_of kit.now state.now other.now) attribute }
{}

/// Where some record agrees with the state and obeys the rules, the fix is unique and undisputed: every maximal
/// run ends in the same record, no step dissents at its end, and the covered attributes have there the texts
/// that they have in the record which obeys the rules.
pub fn truth_is_kept(kit: &Kit, state: &State, texts: &[Text], run: &[Step])
    requires valid { IsValid kit.now }
    requires fits { Fits kit.now state.now }
    requires agrees { RecordAgrees kit.now state.now texts.now }
    requires obeys { Obeys kit.now texts.now }
    requires run { IsMaximalRun kit.now state.now run.now }
    ensures texts { RecordAgrees kit.now (end_of kit.now state.now run.now) texts.now }
    ensures unique { (other : List StepOf) → IsMaximalRun kit.now state.now other
        → EndAlike kit.now state.now run.now other }
    ensures undisputed { (step : StepOf) → ¬ Dissents kit.now (end_of kit.now state.now run.now) step }
{}

/// Where some record agrees with the state and obeys the rules, the answer is a fix without a dissent, and its covered
/// attributes have the texts that they have in that record.
pub fn truth_has_a_fix(
    kit: &Kit,
    state: &State,
    texts: &[Text],
    first: &[Step],
    second: &[Step],
    verdict: Verdict,
)
    requires valid { IsValid kit.now }
    requires fits { Fits kit.now state.now }
    requires agrees { RecordAgrees kit.now state.now texts.now }
    requires obeys { Obeys kit.now texts.now }
    requires answer { IsAnswer kit.now state.now first.now second.now verdict }
    ensures fix { (certain : Bool) × (verdict ≡ verdicts.Fix certain None) }
    ensures texts { RecordAgrees kit.now (end_of kit.now state.now first.now) texts.now }
{}

/// At a certain fix without dissent, the record of the fix agrees with the state and obeys the rules, and no
/// other record does both.
pub fn the_only_true_record(kit: &Kit, state: &State, first: &[Step])
    requires valid { IsValid kit.now }
    requires fits { Fits kit.now state.now }
    requires fix { IsFix kit.now state.now first.now true None }
    ensures agrees { RecordAgrees kit.now state.now (record_of kit.now (end_of kit.now state.now first.now)) }
    ensures obeys { Obeys kit.now (record_of kit.now (end_of kit.now state.now first.now)) }
    ensures only { (texts : List (List ℕ)) → RecordAgrees kit.now state.now texts → Obeys kit.now texts
        → texts ≡ record_of kit.now (end_of kit.now state.now first.now) }
{}

/// At a fix with a dissent, no record both agrees with the state and obeys the rules.
pub fn no_true_record_where_a_step_dissents(
    kit: &Kit,
    state: &State,
    first: &[Step],
    certain: bool,
    dissent: Step,
)
    requires valid { IsValid kit.now }
    requires fits { Fits kit.now state.now }
    requires fix { IsFix kit.now state.now first.now certain (Some dissent) }
    ensures { (texts : List (List ℕ)) → RecordAgrees kit.now state.now texts → ¬ Obeys kit.now texts }
{}
