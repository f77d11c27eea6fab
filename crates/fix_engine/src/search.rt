//! The search for the runs of a state.
ghost use Rattle.std.specs.Prelude.{◌≡◌, ◌+◌, ◌≤◌, ◌↔◌, [], length, IfOk, IsTrue};
ghost use Rattle.fix_model.specs.Application.{covered_left_sides};
ghost use Rattle.fix_model.specs.Fix.{AreAllCovered, IsConflict, SomeRunDiffers};
ghost use Rattle.fix_model.specs.Run.{end_of};
ghost use Rattle.fix_model.specs.States.{Fits};
ghost use Rattle.fix_engine.specs.Searches.{HasRoom, IsSurveyed, KeepsRoom};
ghost use Rattle.fix_engine.specs.Verdicts.{IsJudgement};

use crate::flags::has_flag;
use crate::leads::Leads;
use crate::looks::Looks;
use crate::runs::Runs;
use crate::verdict::Verdict;
use desk_base::Steps;
use fix_model::{Book, State};
use std::alloc::{AllocError, Global};

/// The lists in which runs are searched, and what was found in them.
#[derive(Debug, Drop)]
pub struct Search {
    pub(crate) runs: Runs,
    pub(crate) looks: Looks,
    pub(crate) leads: Leads,
    pub(crate) reach: Vec<bool>,
    pub(crate) departures: Vec<bool>,
}

impl Search {
    /// Room for so many attributes and rules, with no run in it.
    pub(crate) fn new(alloc: Global, width: u16, rules: u16) -> Result<Search, AllocError>
        ensures room { IfOk result (HasRoom width rules) }
        ensures empty { IfOk result (λ made. (made.runs.first.items ≡ []) × (made.runs.second.items ≡ [])) }
    {
        let places = usize::from(width);
        Ok(Search {
            runs: Runs::new(alloc, width)?,
            looks: Looks::new(alloc, rules)?,
            leads: Leads::new(alloc, rules)?,
            reach: Vec::with_capacity(alloc, places)?,
            departures: Vec::with_capacity(alloc, places)?,
        })
    }

    /// Finds the first run, what the rules do at its end, and where a run can depart from it, and judges by that.
    pub(crate) fn survey<L, B: Book<L>>(
        &mut self,
        book: &B,
        state: &mut State,
        counts: &mut Steps<L>,
    ) -> Verdict
        requires fits { Fits (B.kit book.now) state.old }
        requires room { HasRoom (B.kit book.now).width (length (B.kit book.now).rules) self.old }
        ensures surveyed { IsSurveyed (B.kit book.now) state.old self.new }
        ensures judgement { IsJudgement (B.kit book.now) state.old self.new.runs.first.items result }
        ensures state { state.new ≡ state.old }
        ensures looks { counts.new.looks ≤ counts.old.looks
            + covered_left_sides (B.kit book.now) (end_of (B.kit book.now) state.old self.new.runs.first.items) }
        ensures room { KeepsRoom self.old self.new }
    {
        self.runs.begin(&mut self.looks, book, state, counts);
        self.leads.find(&mut self.looks, book, state, counts);
        let certain = covers_all::<L, B>(book, state);
        self.runs.restore(state);
        let dissent = self.leads.dissent();
        self.leads.find_departures(&mut self.departures, &mut self.reach, book, state, dissent);
        if has_flag(&self.departures) {
            return Verdict::Conflict;
        }
        Verdict::Fix { certain, dissent }
    }

    /// Makes the second run, where some run ends elsewhere than the first. Each rule is looked up at most once.
    pub(crate) fn run_elsewhere<L, B: Book<L>>(
        &mut self,
        book: &B,
        state: &mut State,
        counts: &mut Steps<L>,
    )
        requires fits { Fits (B.kit book.now) state.old }
        requires room { HasRoom (B.kit book.now).width (length (B.kit book.now).rules) self.old }
        requires surveyed { IsSurveyed (B.kit book.now) state.old self.old }
        requires differs { SomeRunDiffers (B.kit book.now) state.old self.old.runs.first.items }
        ensures conflict { IsConflict (B.kit book.now) state.old self.new.runs.first.items self.new.runs.second.items }
        ensures state { state.new ≡ state.old }
        ensures looks { counts.new.looks ≤ counts.old.looks + length (B.kit book.now).rules }
        ensures room { KeepsRoom self.old self.new }
    {
        self.leads
            .depart(&mut self.runs.second, &mut self.departures, book, state);
        self.looks
            .complete(&mut self.runs.second, book, state, counts);
        self.runs.restore(state);
    }
}

/// Whether every attribute is covered.
fn covers_all<L, B: Book<L>>(book: &B, state: &State) -> bool
    requires { Fits (B.kit book.now) state.now }
    ensures { IsTrue result ↔ AreAllCovered (B.kit book.now) state.now }
{
    'attributes: for attribute in 0..book.width() {
        if !state.covers(attribute) {
            return false;
        }
    }
    true
}
