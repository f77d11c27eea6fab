//! Whether the order of applications matters.
ghost use Rattle.std.specs.Prelude.{◌≡◌, ◌+◌, ◌*◌, ◌≤◌, [], length};
ghost use Rattle.fix_model.specs.Application.{covered_left_sides};
ghost use Rattle.fix_model.specs.Run.{end_of};
ghost use Rattle.fix_model.specs.States.{Fits};
ghost use Rattle.fix_engine.specs.Verdicts.{IsAnswer, IsJudgement};
ghost use Rattle.fix_engine.specs.WorkSeen.{IsRoomFor, KeepsSize};

use crate::verdict::Verdict;
use crate::work::Work;
use desk_base::Steps;
use fix_model::{Book, State};

/// Judges whether every maximal run from the state ends in the record in which the first run ends. It leaves the
/// first run in the work, and no second, at a conflict too: `decide` makes that one. Only rules whose keys and
/// conditions are covered at the end of the first run are looked up, each once at most. It succeeds whatever memory
/// there is, and gives the state back as it was.
pub fn judge<L, B: Book<L>>(
    work: &mut Work,
    book: &B,
    state: &mut State,
    counts: &mut Steps<L>,
) -> Verdict
    requires fits { Fits (B.kit book.now) state.old }
    requires room { IsRoomFor work.old (B.kit book.now) }
    ensures judgement { IsJudgement (B.kit book.now) state.old work.new.first result }
    ensures second { work.new.second ≡ [] }
    ensures state { state.new ≡ state.old }
    ensures looks { counts.new.looks ≤ counts.old.looks
        + covered_left_sides (B.kit book.now) (end_of (B.kit book.now) state.old work.new.first) }
    ensures size { KeepsSize work.old work.new }
{
    work.search.survey(book, state, counts)
}

/// Decides whether every maximal run from the state ends in the record in which the first run ends. It leaves
/// the first run in the work, and at a conflict the second: the least maximal run that ends in another record.
/// At a fix no second run is left. Each rule is looked up at most twice, whatever the orders are. It succeeds
/// whatever memory there is, and gives the state back as it was.
pub fn decide<L, B: Book<L>>(
    work: &mut Work,
    book: &B,
    state: &mut State,
    counts: &mut Steps<L>,
) -> Verdict
    requires fits { Fits (B.kit book.now) state.old }
    requires room { IsRoomFor work.old (B.kit book.now) }
    ensures answer { IsAnswer (B.kit book.now) state.old work.new.first work.new.second result }
    ensures state { state.new ≡ state.old }
    ensures looks { counts.new.looks ≤ counts.old.looks + 2 * length (B.kit book.now).rules }
    ensures size { KeepsSize work.old work.new }
{
    let verdict = work.search.survey(book, state, counts);
    match verdict {
        Verdict::Fix { .. } => verdict,
        Verdict::Conflict => {
            work.search.run_elsewhere(book, state, counts);
            Verdict::Conflict
        }
    }
}
