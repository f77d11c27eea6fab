//! The looks into a book, each made at most once for a rule.
ghost use Rattle.std.specs.Prelude.{◌≡◌, ◌<◌, ◌≤◌, length, replicate, IfOk, MatchOption, vec_capacity};
ghost use Rattle.fix_engine.specs.Leads.{IsHitAt, IsMissedAt};
ghost use Rattle.fix_engine.specs.Looks.{Knows, LooksAround};

use desk_base::Steps;
use fix_model::{Book, Hit, Rule, State, enabled};
use std::alloc::{AllocError, Global};

/// What is remembered of a rule's rows.
#[derive(Clone, Copy, Debug, PartialEq, Eq)]
pub enum Remembered {
    /// Nothing: the rule was not looked up yet.
    Pending,
    /// What the look found.
    Done(Option<Hit>),
}

/// What is remembered of the looks, for each rule.
#[derive(Debug, Drop)]
pub struct Looks {
    pub(crate) remembered: Vec<Remembered>,
}

impl Looks {
    /// Room for so many rules.
    pub(crate) fn new(alloc: Global, rules: u16) -> Result<Looks, AllocError>
        ensures { IfOk result (λ looks. rules ≤ vec_capacity looks.remembered) }
    {
        Ok(Looks {
            remembered: Vec::with_capacity(alloc, usize::from(rules))?,
        })
    }

    /// Remembers no look, for as many rules. It writes only where a look is remembered.
    pub(crate) fn forget(&mut self, rules: &[Rule])
        requires { length rules.now ≤ vec_capacity self.old.remembered }
        ensures forgotten { self.new.remembered.items ≡ replicate (length rules.now) Remembered.Pending }
        ensures room { vec_capacity self.old.remembered ≤ vec_capacity self.new.remembered }
    {
        self.remembered
            .resize(rules.len(), Remembered::Pending)
            .unwrap();
        'places: for place in 0..self.remembered.len() {
            if let Remembered::Done(_) = self.remembered[place] {
                self.remembered[place] = Remembered::Pending;
            }
        }
    }

    /// What a look for the rule finds, or none where the rule is not enabled or no row agrees. The look is made where
    /// it was not made yet, for this rule or another that shares it, and remembered for all of these.
    pub(crate) fn hit_at<L, B: Book<L>>(
        &mut self,
        book: &B,
        state: &State,
        rule: u16,
        counts: &mut Steps<L>,
    ) -> Option<Hit>
        requires rule_within { rule < length (B.kit book.now).rules }
        requires knows { Knows (B.kit book.now) state.now self.old }
        ensures hit { MatchOption result (IsMissedAt (B.kit book.now) state.now rule)
            (IsHitAt (B.kit book.now) state.now rule) }
        ensures looks { LooksAround (B.kit book.now) state.now self.old self.new counts.old counts.new }
    {
        let this = &book.rules()[usize::from(rule)];
        if !enabled::<L, B>(book, state, this) {
            return None;
        }
        let place = usize::from(book.earliest(rule));
        match self.remembered[place] {
            Remembered::Done(answer) => answer,
            Remembered::Pending => {
                let answer = book.find(rule, state, counts);
                self.remembered[place] = Remembered::Done(answer);
                answer
            }
        }
    }
}
