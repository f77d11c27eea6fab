//! What is suggested for a record.
ghost use Rattle.std.specs.Prelude.{◌≡◌, ◌+◌, ◌*◌, ◌^◌, ◌<◌, ◌≤◌, length, All, IfOk};
ghost use Rattle.fix_model.specs.Application.{covered_left_sides};
ghost use Rattle.fix_model.specs.Regions.{IsRegionOf};
ghost use Rattle.fix_model.specs.Run.{IsMaximalRun, end_of};
ghost use Rattle.fix_model.specs.States.{Fits};
ghost use Rattle.fix_engine.specs.WorkSeen.{IsRoomFor, KeepsSize};
ghost use Rattle.region_suggest.specs.Gains.{AreGains};
ghost use Rattle.region_suggest.specs.Need.{IsNeed};
ghost use Rattle.region_suggest.specs.Suggestions.{IsSuggestion};
ghost use Rattle.region_suggest.specs.Verdicts.{row_count};

use crate::gaining::gains;
use crate::needing::needed;
use crate::offering::{certain_rows, matching_rows};
use crate::opening::open_rules;
use crate::suggestion::Suggestion;
use desk_base::{Duplicate, List, NoMemory, Steps};
use fix_engine::{Verdict, Work, apply, judge};
use fix_model::{Book, Region, State, Step};
use std::alloc::Global;

/// What a clerk may confirm next: of the regions that hold every confirmed attribute the rows whose texts the
/// record has already and that lead to a certain fix, and, where the order of applications doesn't matter, the
/// attributes that have yet to be confirmed and what each is hoped to gain. Each rule is looked up at most once
/// for each region row, and once for the record itself. The state is given back as it was, also where there was
/// no memory.
pub fn suggest<L, B: Book<L>>(
    alloc: Global,
    work: &mut Work,
    book: &B,
    state: &mut State,
    regions: &[Region],
    counts: &mut Steps<L>,
) -> Result<Suggestion, NoMemory>
    requires fits { Fits (B.kit book.now) state.old }
    requires room { IsRoomFor work.old (B.kit book.now) }
    requires regions { All (IsRegionOf (B.kit book.now)) regions.now }
    requires few_regions { length regions.now < 2 ^ 32 }
    requires few_rows { All (λ region. length region.rows < 2 ^ 32) regions.now }
    ensures suggestion { IfOk result (IsSuggestion (B.kit book.now) state.old regions.now) }
    ensures state { state.new ≡ state.old }
    ensures looks { counts.new.looks
        ≤ counts.old.looks + length (B.kit book.now).rules * (row_count regions.now + 1) }
    ensures size { KeepsSize work.old work.new }
{
    let (need, gains) = match judge(work, book, state, counts) {
        Verdict::Conflict => (List::new(alloc), List::new(alloc)),
        Verdict::Fix { .. } => advice(alloc, book, state, work.first(), counts)?,
    };
    let found = matching_rows::<L, B>(alloc, book, state, regions)?;
    let offers = certain_rows(alloc, work, book, regions, found.as_slice(), counts)?;
    Ok(Suggestion {
        regions: offers,
        need,
        gains,
    })
}

/// The attributes that are needed at the end of a run, and what each is hoped to gain there.
fn advice<L, B: Book<L>>(
    alloc: Global,
    book: &B,
    state: &State,
    run: &[Step],
    counts: &mut Steps<L>,
) -> Result<(List<u16>, List<(u16, u16)>), NoMemory>
    requires fits { Fits (B.kit book.now) state.now }
    requires run { IsMaximalRun (B.kit book.now) state.now run.now }
    ensures need { IfOk result
        (λ advice. IsNeed (B.kit book.now) (end_of (B.kit book.now) state.now run.now) advice.0) }
    ensures gains { IfOk result
        (λ advice. AreGains (B.kit book.now) (end_of (B.kit book.now) state.now run.now) advice.1) }
    ensures looks { counts.new.looks
        + covered_left_sides (B.kit book.now) (end_of (B.kit book.now) state.now run.now)
        ≤ counts.old.looks + length (B.kit book.now).rules }
{
    let mut end = state.copy()?;
    apply::<L, B>(book, &mut end, run);
    let rules = open_rules(alloc, book, &end, counts)?;
    let need = needed::<L, B>(alloc, book, &end, &rules)?;
    let gains = gains::<L, B>(alloc, book, &end, &rules)?;
    Ok((need, gains))
}
