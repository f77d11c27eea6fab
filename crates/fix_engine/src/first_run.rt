//! The first run: the least step that fires is made, again and again.
ghost use Rattle.std.specs.Prelude.{◌≡◌, ◌+◌, ◌<◌, ◌≤◌, ℕ, [], length, vec_capacity};
ghost use Rattle.fix_model.specs.FirstRun.{IsFirstRun};
ghost use Rattle.fix_model.specs.States.{Fits, uncovered_count};
ghost use Rattle.fix_model.specs.Valid.{IsValid};
ghost use Rattle.fix_engine.specs.Looks.{AreKnown, Knows, LooksAround, pending_count};
ghost use Rattle.fix_engine.specs.Next.{IsIdle, IsNextStep};
ghost use Rattle.fix_engine.specs.Runs.{IsCompleted};
ghost use Rattle.fix_engine.specs.WorkSeen.{IsRoomFor, KeepsSize};

use crate::departing::head_of;
use crate::looks::Looks;
use crate::runs::make;
use crate::waking::woken;
use crate::work::Work;
use desk_base::Steps;
use fix_model::{Book, State, Step};

/// Leaves the first run from the state: of all maximal runs the least, by rule and then row. Each rule is
/// looked up at most once. It succeeds whatever memory there is, and gives the state back as it was.
pub fn least<L, B: Book<L>>(work: &mut Work, book: &B, state: &mut State, counts: &mut Steps<L>)
    requires fits { Fits (B.kit book.now) state.old }
    requires room { IsRoomFor work.old (B.kit book.now) }
    ensures first { IsFirstRun (B.kit book.now) state.old work.new.first }
    ensures second { work.new.second ≡ [] }
    ensures state { state.new ≡ state.old }
    ensures looks { counts.new.looks ≤ counts.old.looks + length (B.kit book.now).rules }
    ensures size { KeepsSize work.old work.new }
{
    let search = &mut work.search;
    search.runs.begin(&mut search.looks, book, state, counts);
    search.runs.restore(state);
}

impl Looks {
    /// Makes the first run from the state, after the steps that are there, and leaves its end. The looks are forgotten
    /// before, and each rule is looked up at most once. After a step the walk over the rules goes on from the first one
    /// that waits for its head.
    pub(crate) fn complete<L, B: Book<L>>(
        &mut self,
        run: &mut Vec<Step>,
        book: &B,
        state: &mut State,
        counts: &mut Steps<L>,
    )
        requires fits { Fits (B.kit book.now) state.old }
        requires looks_room { length (B.kit book.now).rules ≤ vec_capacity self.old.remembered }
        requires room { length run.old.items + uncovered_count state.old ≤ vec_capacity run.old }
        ensures valid { IsValid (B.kit book.now) }
        ensures completed { IsCompleted (B.kit book.now) state.old state.new run.old.items run.new.items }
        ensures fits { Fits (B.kit book.now) state.new }
        ensures known { AreKnown (B.kit book.now) state.new self.new.remembered.items }
        ensures looks { counts.new.looks + pending_count self.new.remembered.items
            ≤ counts.old.looks + length (B.kit book.now).rules }
        ensures looks_stay { vec_capacity self.old.remembered ≤ vec_capacity self.new.remembered }
        ensures room { vec_capacity run.old ≤ vec_capacity run.new }
    {
        self.forget(book.rules());
        let mut from = 0;
        'steps: while let Some(step) = self.next_step(from, book, state, counts) {
            make::<L, B>(book, state, step);
            run.push(step).unwrap();
            from = woken::<L, B>(book, step.rule);
        }
    }

    /// The least step that fires, or none where nothing fires. No step of a rule before the first one fires.
    fn next_step<L, B: Book<L>>(
        &mut self,
        from: u16,
        book: &B,
        state: &State,
        counts: &mut Steps<L>,
    ) -> Option<Step>
        requires knows { Knows (B.kit book.now) state.now self.old }
        requires idle { (place : ℕ) → place < from → IsIdle (B.kit book.now) state.now place }
        ensures step { IsNextStep (B.kit book.now) state.now result }
        ensures looks { LooksAround (B.kit book.now) state.now self.old self.new counts.old counts.new }
    {
        let count = book.rules().len() as u16;
        'rules: for rule in from..count {
            if !state.covers(head_of(book, rule)) {
                if let Some(hit) = self.hit_at(book, state, rule, counts) {
                    return Some(Step {
                        rule,
                        row: hit.first,
                    });
                }
            }
        }
        None
    }
}
