//! What the rules do at the end of the first run.
ghost use Rattle.std.specs.Prelude.{◌≡◌, ◌<◌, ◌≤◌, ◌↔◌, ℕ, length, IsTrue, IfOk, slice_index_or, vec_capacity};
ghost use Rattle.fix_model.specs.Rules.{IsStepOf};
ghost use Rattle.fix_model.specs.Run.{IsFinal};
ghost use Rattle.fix_model.specs.States.{Fits};
ghost use Rattle.fix_engine.specs.Departures.{Keeps};
ghost use Rattle.fix_engine.specs.Leads.{AreLeads, IsHitAt, IsLead, TellsDissent, is_keeping, leaving_row};
ghost use Rattle.fix_engine.specs.Looks.{Knows, LooksAround};

use crate::departing::head_of;
use crate::looks::Looks;
use desk_base::{MAX_RULES, Steps};
use fix_model::{Book, Hit, State, Step, enabled, value};
use std::alloc::{AllocError, Global};

/// What a rule does at the end of the first run, where no step fires.
#[derive(Clone, Copy, Debug, PartialEq, Eq)]
pub enum Lead {
    /// Nothing: it is not enabled there, or no row agrees.
    Nothing,
    /// The first row that agrees gives the head the value that it has there.
    Keeps(Hit),
    /// The first row that agrees gives the head another value.
    Leaves(Hit),
}

impl Lead {
    /// Whether the first row that agrees gives the head the value that it has there.
    pub fn is_keeping(self) -> bool
        ensures { result ≡ is_keeping self }
    {
        match self {
            Lead::Keeps(_) => true,
            Lead::Nothing | Lead::Leaves(_) => false,
        }
    }

    /// The least row that gives the head another value than it has there.
    pub fn leaving_row(self) -> Option<u32>
        ensures { result ≡ leaving_row self }
    {
        match self {
            Lead::Nothing => None,
            Lead::Keeps(hit) => hit.other,
            Lead::Leaves(hit) => Some(hit.first),
        }
    }
}

/// The lead of each rule.
#[derive(Debug, Drop)]
pub struct Leads {
    pub(crate) leads: Vec<Lead>,
}

impl Leads {
    /// Room for so many rules.
    pub(crate) fn new(alloc: Global, rules: u16) -> Result<Leads, AllocError>
        ensures { IfOk result (λ made. rules ≤ vec_capacity made.leads) }
    {
        Ok(Leads {
            leads: Vec::with_capacity(alloc, usize::from(rules))?,
        })
    }

    /// Finds what each rule does at the state, where nothing fires. Each rule is looked up at most once.
    pub(crate) fn find<L, B: Book<L>>(
        &mut self,
        looks: &mut Looks,
        book: &B,
        state: &State,
        counts: &mut Steps<L>,
    )
        requires knows { Knows (B.kit book.now) state.now looks.old }
        requires ended { IsFinal (B.kit book.now) state.now }
        requires room { length (B.kit book.now).rules ≤ vec_capacity self.old.leads }
        ensures leads { AreLeads (B.kit book.now) state.now self.new.leads.items }
        ensures looks { LooksAround (B.kit book.now) state.now looks.old looks.new counts.old counts.new }
        ensures room { vec_capacity self.old.leads ≤ vec_capacity self.new.leads }
    {
        self.leads.clear();
        'rules: for rule in 0..book.rules().len() as u16 {
            let lead = self.next_lead(looks, book, state, rule, counts);
            self.leads.push(lead).unwrap();
        }
    }

    /// What the next rule does: the same as an earlier one with its look and its head, where it has one.
    fn next_lead<L, B: Book<L>>(
        &self,
        looks: &mut Looks,
        book: &B,
        state: &State,
        rule: u16,
        counts: &mut Steps<L>,
    ) -> Lead
        requires rule_within { rule < length (B.kit book.now).rules }
        requires knows { Knows (B.kit book.now) state.now looks.old }
        requires ended { IsFinal (B.kit book.now) state.now }
        requires before { (place : ℕ) → place < rule
            → IsLead (B.kit book.now) state.now place (slice_index_or self.now.leads.items place Lead.Nothing) }
        ensures lead { IsLead (B.kit book.now) state.now rule result }
        ensures looks { LooksAround (B.kit book.now) state.now looks.old looks.new counts.old counts.new }
    {
        let earlier = book.earliest(rule);
        if earlier < rule && head_of(book, earlier) == head_of(book, rule) {
            return self.lead(earlier);
        }
        if !state.covers(head_of(book, rule)) {
            return Lead::Nothing;
        }
        match looks.hit_at(book, state, rule, counts) {
            Some(hit) => lead_by::<L, B>(book, state, rule, hit),
            None => Lead::Nothing,
        }
    }

    /// What a rule does, nothing past the last rule.
    pub(crate) fn lead(&self, rule: u16) -> Lead
        ensures { result ≡ slice_index_or self.now.leads.items rule Lead.Nothing }
    {
        match self.leads.get(usize::from(rule)) {
            Some(lead) => *lead,
            None => Lead::Nothing,
        }
    }

    /// The least step that dissents where these leads were found, and nothing fires.
    pub(crate) fn dissent(&self) -> Option<Step>
        requires { length self.now.leads.items ≤ MAX_RULES }
        ensures { TellsDissent self.now.leads.items result }
    {
        'rules: for (rule, lead) in self.leads.iter().enumerate() {
            if let Some(row) = lead.leaving_row() {
                return Some(Step {
                    rule: rule as u16,
                    row,
                });
            }
        }
        None
    }
}

/// What a rule does whose look finds this.
fn lead_by<L, B: Book<L>>(book: &B, state: &State, rule: u16, hit: Hit) -> Lead
    requires rule_within { rule < length (B.kit book.now).rules }
    requires fits { Fits (B.kit book.now) state.now }
    requires hit { IsHitAt (B.kit book.now) state.now rule hit }
    ensures { IsLead (B.kit book.now) state.now rule result }
{
    let first = Step {
        rule,
        row: hit.first,
    };
    if keeps::<L, B>(book, state, first) {
        Lead::Keeps(hit)
    } else {
        Lead::Leaves(hit)
    }
}

/// Whether the step gives its head the value that the head has.
fn keeps<L, B: Book<L>>(book: &B, state: &State, step: Step) -> bool
    requires fits { Fits (B.kit book.now) state.now }
    requires step { IsStepOf (B.kit book.now) step }
    ensures { IsTrue result ↔ Keeps (B.kit book.now) state.now step }
{
    was_given::<L, B>(book, state, step) || gives_text::<L, B>(book, state, step)
}

/// Whether the head was fixed by the same row, by this rule or another that shares its look: then no texts need to be
/// compared.
fn was_given<L, B: Book<L>>(book: &B, state: &State, step: Step) -> bool
    requires fits { Fits (B.kit book.now) state.now }
    requires step { IsStepOf (B.kit book.now) step }
    ensures { IsTrue result → Keeps (B.kit book.now) state.now step }
{
    let head = book.rules()[usize::from(step.rule)].head;
    match state.fixed_by(head) {
        Some(made) => {
            made.row == step.row && book.earliest(made.rule) == book.earliest(step.rule)
        }
        None => false,
    }
}

/// Whether the text that the step gives is the one that the head has.
fn gives_text<L, B: Book<L>>(book: &B, state: &State, step: Step) -> bool
    requires fits { Fits (B.kit book.now) state.now }
    requires step { IsStepOf (B.kit book.now) step }
    ensures { IsTrue result ↔ Keeps (B.kit book.now) state.now step }
{
    let head = book.rules()[usize::from(step.rule)].head;
    book.text(step) == value::<L, B>(book, state, head)
}
