//! The second run: the least that ends in another record than the first.
ghost use Rattle.std.specs.Prelude.{◌≡◌, ◌+◌, ◌<◌, ◌≤◌, true, false, length, MatchOption, vec_capacity};
ghost use Rattle.fix_model.specs.declared.state.State.{State as StateOf};
ghost use Rattle.fix_model.specs.States.{Fits, uncovered_count};
ghost use Rattle.fix_model.specs.Valid.{IsValid};
ghost use Rattle.fix_engine.specs.Departures.{AreDepartures, IsLedTo};
ghost use Rattle.fix_engine.specs.Turns.{ArePassedBefore, BeginsElsewhere, CanDepartSomewhere, IsLeastOf, IsLeastOfAll};
ghost use Rattle.fix_engine.specs.Turns.{IsLeftFrom, IsPassed, IsTurn};

use crate::flags::{has_other, last_flagged};
use crate::leads::{Lead, Leads};
use crate::runs::make;
use crate::waking::woken;
use fix_model::{Book, State, Step, enabled};

/// A step of the second run, and whether it departs from the end of the first.
#[derive(Clone, Copy, Debug, PartialEq, Eq)]
pub struct Turn {
    pub step: Step,
    pub departs: bool,
}

impl Turn {
    fn departing(rule: u16, row: u32) -> Turn
        ensures { result ≡ record { step = record { rule = rule; row = row }; departs = true } }
    {
        Turn {
            step: Step { rule, row },
            departs: true,
        }
    }

    fn keeping(rule: u16, row: u32) -> Turn
        ensures { result ≡ record { step = record { rule = rule; row = row }; departs = false } }
    {
        Turn {
            step: Step { rule, row },
            departs: false,
        }
    }
}

impl Leads {
    /// Makes the steps of the second run up to its departure, after the steps that are there. After a step the walk
    /// over the rules goes on from the first one that waits for its head.
    pub(crate) fn depart<L, B: Book<L>>(
        &self,
        run: &mut Vec<Step>,
        departures: &mut [bool],
        book: &B,
        state: &mut State,
    )
        requires valid { IsValid (B.kit book.now) }
        requires fits { Fits (B.kit book.now) state.old }
        requires left { (end : StateOf)
            × IsLeftFrom (B.kit book.now) state.old end self.now.leads.items departures.old }
        requires room { length run.old.items + uncovered_count state.old ≤ vec_capacity run.old }
        ensures departed { (end : StateOf)
            → IsLeftFrom (B.kit book.now) state.old end self.now.leads.items departures.old
            → BeginsElsewhere (B.kit book.now) end state.old state.new run.old.items run.new.items }
        ensures fits { Fits (B.kit book.now) state.new }
        ensures typed { state.new.typed ≡ state.old.typed }
        ensures room { length run.new.items + uncovered_count state.new ≤ vec_capacity run.new }
        ensures capacity { vec_capacity run.old ≤ vec_capacity run.new }
    {
        let likely = last_flagged(departures);
        let mut from = 0;
        'turns: while let Some(turn) = self.next_turn(from, departures, likely, book, state) {
            make::<L, B>(book, state, turn.step);
            run.push(turn.step).unwrap();
            if turn.departs {
                return;
            }
            let head = book.rules()[usize::from(turn.step.rule)].head;
            departures[usize::from(head)] = false;
            from = woken::<L, B>(book, turn.step.rule);
        }
    }

    /// The next step of the second run, or none where no run ends in another record. None that does begins with a rule
    /// before the first one. An attribute at which a run is likely to depart makes it faster, and changes nothing.
    fn next_turn<L, B: Book<L>>(
        &self,
        from: u16,
        departures: &[bool],
        likely: usize,
        book: &B,
        state: &State,
    ) -> Option<Turn>
        requires { Fits (B.kit book.now) state.now }
        ensures { (end : StateOf) → IsLedTo (B.kit book.now) state.now end self.now.leads.items
            → AreDepartures (B.kit book.now) end state.now departures.now
            → ArePassedBefore (B.kit book.now) end state.now from
            → MatchOption result (¬ CanDepartSomewhere (B.kit book.now) end state.now)
            (λ turn. IsTurn (B.kit book.now) end state.now turn
            × IsLeastOfAll (B.kit book.now) end state.now turn.step) }
    {
        let count = book.rules().len() as u16;
        'rules: for rule in from..count {
            if let Some(turn) = self.turn_of(departures, likely, book, state, rule) {
                return Some(turn);
            }
        }
        None
    }

    /// The step of the second run by a rule, or none where no run that ends in another record goes on by it.
    fn turn_of<L, B: Book<L>>(
        &self,
        departures: &[bool],
        likely: usize,
        book: &B,
        state: &State,
        rule: u16,
    ) -> Option<Turn>
        requires fits { Fits (B.kit book.now) state.now }
        requires rule_within { rule < length (B.kit book.now).rules }
        ensures { (end : StateOf) → IsLedTo (B.kit book.now) state.now end self.now.leads.items
            → AreDepartures (B.kit book.now) end state.now departures.now
            → MatchOption result (IsPassed (B.kit book.now) end state.now rule)
            (λ turn. IsTurn (B.kit book.now) end state.now turn × (turn.step.rule ≡ rule)
            × IsLeastOf (B.kit book.now) end state.now rule turn.step) }
    {
        let this = &book.rules()[usize::from(rule)];
        if state.covers(this.head) || !enabled::<L, B>(book, state, this) {
            return None;
        }
        match self.lead(rule) {
            Lead::Nothing => None,
            Lead::Leaves(hit) => Some(Turn::departing(rule, hit.first)),
            Lead::Keeps(hit) => {
                if has_other(departures, this.head, likely) {
                    return Some(Turn::keeping(rule, hit.first));
                }
                match hit.other {
                    Some(row) => Some(Turn::departing(rule, row)),
                    None => None,
                }
            }
        }
    }
}
