//! The steps of runs.
ghost use Rattle.std.specs.Prelude.{◌≡◌, ◌+◌, ◌<◌, ◌≤◌, [], length, IfOk, vec_capacity};
ghost use Rattle.fix_model.specs.Application.{after};
ghost use Rattle.fix_model.specs.Run.{IsRun, end_of};
ghost use Rattle.fix_model.specs.Rules.{rule_at};
ghost use Rattle.fix_model.specs.States.{Fits};
ghost use Rattle.fix_engine.specs.Runs.{HasRunRoom, IsBegun, KeepsRunRoom};
ghost use Rattle.fix_engine.specs.Looks.{AreKnown, pending_count};

use crate::looks::Looks;
use desk_base::Steps;
use fix_model::{Book, Cell, State, Step};
use std::alloc::{AllocError, Global};

/// The runs that a call leaves, and the cells of the state that it began at.
#[derive(Debug, Drop)]
pub struct Runs {
    pub(crate) first: Vec<Step>,
    pub(crate) second: Vec<Step>,
    pub(crate) saved: Vec<Cell>,
}

impl Runs {
    /// Room for runs over so many attributes, with no run in it.
    pub(crate) fn new(alloc: Global, width: u16) -> Result<Runs, AllocError>
        ensures room { IfOk result (HasRunRoom width) }
        ensures empty { IfOk result (λ runs. (runs.first.items ≡ []) × (runs.second.items ≡ [])) }
    {
        let places = usize::from(width);
        Ok(Runs {
            first: Vec::with_capacity(alloc, places)?,
            second: Vec::with_capacity(alloc, places)?,
            saved: Vec::with_capacity(alloc, places)?,
        })
    }

    /// Leaves the first run from the state and no second, and the state at its end. The looks are forgotten
    /// before. The cells from which it began are saved.
    pub(crate) fn begin<L, B: Book<L>>(
        &mut self,
        looks: &mut Looks,
        book: &B,
        state: &mut State,
        counts: &mut Steps<L>,
    )
        requires fits { Fits (B.kit book.now) state.old }
        requires room { HasRunRoom (B.kit book.now).width self.old }
        requires looks_room { length (B.kit book.now).rules ≤ vec_capacity looks.old.remembered }
        ensures begun { IsBegun (B.kit book.now) state.old state.new self.new }
        ensures known { AreKnown (B.kit book.now) state.new looks.new.remembered.items }
        ensures looks { counts.new.looks + pending_count looks.new.remembered.items
            ≤ counts.old.looks + length (B.kit book.now).rules }
        ensures room { KeepsRunRoom self.old self.new }
        ensures looks_stay { vec_capacity looks.old.remembered ≤ vec_capacity looks.new.remembered }
    {
        self.first.clear();
        self.second.clear();
        self.saved.clear();
        self.saved
            .extend_from_slice(state.cells.as_slice())
            .unwrap();
        looks.complete(&mut self.first, book, state, counts);
    }

    /// Gives the state its saved cells back.
    pub(crate) fn restore(&self, state: &mut State)
        requires { length self.now.saved.items ≡ length state.old.cells }
        ensures { state.new ≡ record state.old { cells = self.now.saved.items } }
    {
        'cells: for (place, cell) in self.saved.iter().enumerate() {
            state.cells.set(place, *cell);
        }
    }
}

/// Makes the steps of a run, one after the other. It succeeds whatever memory there is.
pub fn apply<L, B: Book<L>>(book: &B, state: &mut State, run: &[Step])
    requires fits { Fits (B.kit book.now) state.old }
    requires run { IsRun (B.kit book.now) state.old run.now }
    ensures { state.new ≡ end_of (B.kit book.now) state.old run.now }
{
    'steps: for step in run {
        make::<L, B>(book, state, *step);
    }
}

/// Fixes the head of the step's rule by the step.
pub(crate) fn make<L, B: Book<L>>(book: &B, state: &mut State, step: Step)
    requires rule_within { step.rule < length (B.kit book.now).rules }
    requires fits { Fits (B.kit book.now) state.old }
    ensures { state.new ≡ after (B.kit book.now) state.old step }
{
    let head = book.rules()[usize::from(step.rule)].head;
    state.cells.set(usize::from(head), Cell::Fixed(step));
}
