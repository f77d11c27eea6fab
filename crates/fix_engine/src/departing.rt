//! Where a run can depart from the end of the first run.
ghost use Rattle.std.specs.Prelude.{◌≡◌, ◌<◌, ◌≤◌, ◌↔◌, ℕ, length, IsTrue, MatchBool, MatchOption, vec_capacity};
ghost use Rattle.fix_model.specs.declared.state.State.{State as StateOf};
ghost use Rattle.fix_model.specs.Rules.{rule_at};
ghost use Rattle.fix_model.specs.States.{Fits, IsCovered};
ghost use Rattle.fix_model.specs.Valid.{IsValid};
ghost use Rattle.fix_engine.specs.Departures.{AreDepartures, CanDepart, GoesOn, IsClosed, IsLedTo, IsLeft};
ghost use Rattle.fix_engine.specs.Departures.{IsLeftSomehow, IsNextRule, IsReach, LeavesBy};
ghost use Rattle.fix_engine.specs.Flags.{HasFlags, IsFlagged};
ghost use Rattle.fix_engine.specs.Leads.{TellsDissent};

use crate::flags::{flag_covered, flag_none, has_flags, is_flagged};
use crate::leads::Leads;
use fix_model::{Book, Rule, State, Step};
use std::ops::Range;

impl Leads {
    /// Flags the attributes at which a run from the state can depart: none where no step dissents at the end.
    pub(crate) fn find_departures<L, B: Book<L>>(
        &self,
        departures: &mut Vec<bool>,
        reach: &mut Vec<bool>,
        book: &B,
        state: &State,
        dissent: Option<Step>,
    )
        requires valid { IsValid (B.kit book.now) }
        requires fits { Fits (B.kit book.now) state.now }
        requires dissent { TellsDissent self.now.leads.items dissent }
        requires departures_room { (B.kit book.now).width ≤ vec_capacity departures.old }
        requires reach_room { (B.kit book.now).width ≤ vec_capacity reach.old }
        ensures departures { (end : StateOf) → IsLedTo (B.kit book.now) state.now end self.now.leads.items
            → AreDepartures (B.kit book.now) end state.now departures.new.items }
        ensures whole { length departures.new.items ≡ (B.kit book.now).width }
        ensures departures_stay { vec_capacity departures.old ≤ vec_capacity departures.new }
        ensures reach_stays { vec_capacity reach.old ≤ vec_capacity reach.new }
    {
        if dissent.is_none() {
            flag_none(departures, book.width());
            return;
        }
        self.flag_left(departures, book);
        'attributes: for attribute in 0..book.width() {
            if is_flagged(departures, attribute) {
                let departs = self.can_depart(reach, book, state, attribute);
                departures[usize::from(attribute)] = departs;
            }
        }
    }

    /// Flags the heads of the rules that have a row that gives them another value than they have at the end. A run can
    /// depart at no other attribute.
    fn flag_left<L, B: Book<L>>(&self, flags: &mut Vec<bool>, book: &B)
        requires room { (B.kit book.now).width ≤ vec_capacity flags.old }
        ensures left { (attribute : ℕ) → IsFlagged flags.new.items attribute
            ↔ IsLeftSomehow (B.kit book.now) self.now.leads.items attribute }
        ensures whole { length flags.new.items ≡ (B.kit book.now).width }
        ensures room { vec_capacity flags.old ≤ vec_capacity flags.new }
    {
        flag_none(flags, book.width());
        'rules: for rule in 0..book.rules().len() as u16 {
            if self.lead(rule).leaving_row().is_some() {
                let head = head_of(book, rule);
                flags[usize::from(head)] = true;
            }
        }
    }

    /// Whether a run from the state can depart at the attribute.
    fn can_depart<L, B: Book<L>>(
        &self,
        reach: &mut Vec<bool>,
        book: &B,
        state: &State,
        attribute: u16,
    ) -> bool
        requires valid { IsValid (B.kit book.now) }
        requires fits { Fits (B.kit book.now) state.now }
        requires room { (B.kit book.now).width ≤ vec_capacity reach.old }
        ensures departs { (end : StateOf) → IsLedTo (B.kit book.now) state.now end self.now.leads.items
            → (IsTrue result ↔ CanDepart (B.kit book.now) end state.now attribute) }
        ensures room { vec_capacity reach.old ≤ vec_capacity reach.new }
    {
        if state.covers(attribute) {
            return false;
        }
        self.find_reach(reach, book, state, attribute);
        self.is_left(reach, book, attribute)
    }

    /// Whether some rule with this head, whose keys and conditions are flagged, has a row that gives it another value
    /// than it has at the end.
    fn is_left<L, B: Book<L>>(&self, flags: &[bool], book: &B, attribute: u16) -> bool
        ensures { MatchBool result (IsLeft (B.kit book.now) self.now.leads.items flags.now attribute)
            (¬ IsLeft (B.kit book.now) self.now.leads.items flags.now attribute) }
    {
        let count = book.rules().len() as u16;
        'rules: for rule in 0..count {
            if self.leaves_within(flags, book, attribute, rule) {
                return true;
            }
        }
        false
    }

    fn leaves_within<L, B: Book<L>>(
        &self,
        flags: &[bool],
        book: &B,
        attribute: u16,
        rule: u16,
    ) -> bool
        requires { rule < length (B.kit book.now).rules }
        ensures { IsTrue result ↔ (LeavesBy (B.kit book.now) self.now.leads.items attribute rule
            × HasFlags flags.now (rule_at (B.kit book.now) rule)) }
    {
        self.leaves_by(book, attribute, rule) && has_flags(flags, &book.rules()[usize::from(rule)])
    }

    fn leaves_by<L, B: Book<L>>(&self, book: &B, attribute: u16, rule: u16) -> bool
        requires { rule < length (B.kit book.now).rules }
        ensures { IsTrue result ↔ LeavesBy (B.kit book.now) self.now.leads.items attribute rule }
    {
        book.rules()[usize::from(rule)].head == attribute && self.lead(rule).leaving_row().is_some()
    }

    /// Flags what can be covered from the state by rules that support the end, where one attribute is left out.
    fn find_reach<L, B: Book<L>>(
        &self,
        reach: &mut Vec<bool>,
        book: &B,
        state: &State,
        left_out: u16,
    )
        requires valid { IsValid (B.kit book.now) }
        requires fits { Fits (B.kit book.now) state.now }
        requires room { (B.kit book.now).width ≤ vec_capacity reach.old }
        requires uncovered { ¬ IsCovered state.now left_out }
        ensures reach { (end : StateOf) → IsLedTo (B.kit book.now) state.now end self.now.leads.items
            → IsReach (B.kit book.now) end state.now left_out reach.new.items
            × IsClosed (B.kit book.now) end left_out reach.new.items }
        ensures room { vec_capacity reach.old ≤ vec_capacity reach.new }
    {
        flag_covered(reach, state);
        let mut from = 0;
        'rules: while let Some(rule) = self.next_rule(reach, book, left_out, from) {
            let head = head_of(book, rule);
            reach[usize::from(head)] = true;
            from = rule;
        }
    }

    /// A rule that goes on from what is flagged, or none. It is looked for from a rule on, and then before that one.
    fn next_rule<L, B: Book<L>>(
        &self,
        flags: &[bool],
        book: &B,
        left_out: u16,
        from: u16,
    ) -> Option<u16>
        ensures { MatchOption result
            ((place : ℕ) → place < length (B.kit book.now).rules
            → ¬ IsNextRule (B.kit book.now) self.now.leads.items flags.now left_out place)
            (λ rule. (rule < length (B.kit book.now).rules)
            × IsNextRule (B.kit book.now) self.now.leads.items flags.now left_out rule) }
    {
        let count = book.rules().len() as u16;
        let middle = from.min(count);
        match self.next_rule_among(flags, book, left_out, middle..count) {
            Some(rule) => Some(rule),
            None => self.next_rule_among(flags, book, left_out, 0..middle),
        }
    }

    /// The first of these rules that goes on from what is flagged, or none.
    fn next_rule_among<L, B: Book<L>>(
        &self,
        flags: &[bool],
        book: &B,
        left_out: u16,
        rules: Range<u16>,
    ) -> Option<u16>
        requires { rules.end ≤ length (B.kit book.now).rules }
        ensures { MatchOption result
            ((place : ℕ) → rules.start ≤ place → place < rules.end
            → ¬ IsNextRule (B.kit book.now) self.now.leads.items flags.now left_out place)
            (λ rule. (rule < rules.end)
            × IsNextRule (B.kit book.now) self.now.leads.items flags.now left_out rule) }
    {
        'rules: for rule in rules {
            if self.is_next_rule(flags, book, left_out, rule) {
                return Some(rule);
            }
        }
        None
    }

    fn is_next_rule<L, B: Book<L>>(
        &self,
        flags: &[bool],
        book: &B,
        left_out: u16,
        rule: u16,
    ) -> bool
        requires { rule < length (B.kit book.now).rules }
        ensures { IsTrue result ↔ IsNextRule (B.kit book.now) self.now.leads.items flags.now left_out rule }
    {
        self.lead(rule).is_keeping() && goes_on(flags, &book.rules()[usize::from(rule)], left_out)
    }
}

/// Whether the rule's keys and conditions are flagged, and its head is neither flagged nor left out.
fn goes_on(flags: &[bool], rule: &Rule, left_out: u16) -> bool
    ensures { IsTrue result ↔ GoesOn flags.now left_out rule.now }
{
    rule.head != left_out && !is_flagged(flags, rule.head) && has_flags(flags, rule)
}

/// The head of a rule, counted from 0.
pub(crate) fn head_of<L, B: Book<L>>(book: &B, rule: u16) -> u16
    requires { rule < length (B.kit book.now).rules }
    ensures { result ≡ (rule_at (B.kit book.now) rule).head }
{
    book.rules()[usize::from(rule)].head
}
