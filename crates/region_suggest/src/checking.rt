//! The verdicts of region rows.
ghost use Rattle.std.specs.Prelude.{◌≡◌, ◌+◌, ◌*◌, ◌≤◌, length, IfOk};
ghost use Rattle.fix_model.specs.Regions.{IsRegionOf, IsVerdict};
ghost use Rattle.fix_model.specs.States.{Fits};
ghost use Rattle.fix_engine.specs.WorkSeen.{IsRoomFor, KeepsSize};
ghost use Rattle.region_suggest.specs.Verdicts.{AreVerdicts};

use desk_base::{List, NoMemory, Steps};
use fix_engine::{Verdict, Work, judge};
use fix_model::{Book, Region, RowVerdict, State, row_state};
use std::alloc::Global;

/// The verdict of each row of a region, in their order: where it leads to confirm the row's texts on exactly the
/// region's attributes, with blanks elsewhere. Each rule is looked up at most once for each row.
pub fn check<L, B: Book<L>>(
    alloc: Global,
    work: &mut Work,
    book: &B,
    region: &Region,
    counts: &mut Steps<L>,
) -> Result<List<RowVerdict>, NoMemory>
    requires region { IsRegionOf (B.kit book.now) region.now }
    requires room { IsRoomFor work.old (B.kit book.now) }
    ensures verdicts { IfOk result (AreVerdicts (B.kit book.now) region.now) }
    ensures looks { counts.new.looks
        ≤ counts.old.looks + length (B.kit book.now).rules * length region.now.rows }
    ensures size { KeepsSize work.old work.new }
{
    let mut verdicts = List::new(alloc);
    'rows: for texts in region.rows.as_slice() {
        let attributes = region.attrs.as_slice();
        let state = row_state(alloc, book.width(), attributes, texts.as_slice())?;
        let verdict = verdict_of(work, book, state, counts);
        verdicts.push(verdict)?;
    }
    Ok(verdicts)
}

/// The verdict of a state.
pub(crate) fn verdict_of<L, B: Book<L>>(
    work: &mut Work,
    book: &B,
    mut state: State,
    counts: &mut Steps<L>,
) -> RowVerdict
    requires fits { Fits (B.kit book.now) state }
    requires room { IsRoomFor work.old (B.kit book.now) }
    ensures verdict { IsVerdict (B.kit book.now) state result }
    ensures looks { counts.new.looks ≤ counts.old.looks + length (B.kit book.now).rules }
    ensures size { KeepsSize work.old work.new }
{
    match judge(work, book, &mut state, counts) {
        Verdict::Fix { certain: true, .. } => RowVerdict::Certain,
        Verdict::Fix { certain: false, .. } => RowVerdict::Partial,
        Verdict::Conflict => RowVerdict::Conflict,
    }
}
