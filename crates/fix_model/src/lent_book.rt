//! The plain book over a kit that is lent, which looks through all rows of a master.
ghost use Rattle.std.specs.Prelude.{◌≡◌, ◌↔◌, IsTrue};
ghost use Rattle.fix_model.specs.Hit.{IsFirstOf, SomeRowAgrees};
ghost use Rattle.fix_model.specs.Sought.{HasColumns, Meets, TellsFirst, TellsHit, TellsOther};
ghost use Rattle.fix_model.specs.States.{Fits};
ghost use Rattle.fix_model.specs.Valid.{IsValid, IsValidRule};

use crate::book::{Book, Hit};
use crate::kit::Kit;
use crate::rows::Sought;
use crate::rule::Rule;
use crate::state::State;
use desk_base::{Grid, Steps};
use std::marker::Model;

/// A valid kit that is lent, as a book. Each look goes through the rows of the rule's master.
#[derive(Debug, Drop)]
pub(crate) struct LentBook<'a> {
    inside: &'a Kit,
}

impl<'a> Model for LentBook<'a> {
    ghost use Rattle.fix_model.specs.declared.kit.Kit.{Kit};
    ghost use Rattle.fix_model.specs.Valid.{IsValid};

    ghost Value = { Kit };

    ghost view = { λ b. b.inside.now };

    ghost invariant = { λ b. IsValid b.inside.now };
}

impl Kit {
    /// The kit as a book.
    pub(crate) fn lend(&self) -> LentBook<'_>
        requires { IsValid self.now }
        ensures { result ≡ self.now }
    {
        LentBook { inside: self }
    }
}

impl<'a, L> Book<L> for LentBook<'a> {
    ghost kit = { λ b. b };

    fn inside(&self) -> &Kit {
        self.inside
    }

    fn find(&self, rule: u16, state: &State, counts: &mut Steps<L>) -> Option<Hit> {
        counts.look();
        let rule = self.inside.rule(rule);
        let sought = Sought::at(self.inside, state, rule);
        hit_in(self.inside.master(rule), rule, &sought)
    }

    fn agrees(&self, rule: u16, state: &State, counts: &mut Steps<L>) -> bool {
        counts.look();
        some_row_agrees(self.inside, state, self.inside.rule(rule))
    }
}

fn hit_in(master: &Grid, rule: &Rule, sought: &Sought<'_>) -> Option<Hit>
    requires { HasColumns master.now rule.now sought.now }
    ensures { TellsHit master.now rule.now sought.now result }
{
    let first = first_row(master, rule, sought)?;
    let other = other_row(master, rule, sought, first);
    Some(Hit { first, other })
}

fn first_row(master: &Grid, rule: &Rule, sought: &Sought<'_>) -> Option<u32>
    requires { HasColumns master.now rule.now sought.now }
    ensures { TellsFirst master.now rule.now sought.now result }
{
    'rows: for row in 0..master.rows() {
        if sought.agrees(master, rule, row) {
            return Some(row);
        }
    }
    None
}

fn other_row(master: &Grid, rule: &Rule, sought: &Sought<'_>, first: u32) -> Option<u32>
    requires columns { HasColumns master.now rule.now sought.now }
    requires first_row { IsFirstOf (Meets master.now rule.now sought.now) first }
    ensures { TellsOther master.now rule.now sought.now first result }
{
    'rows: for row in first..master.rows() {
        if sought.gives_other(master, rule, first, row) {
            return Some(row);
        }
    }
    None
}

/// Whether some usable row of the rule agrees with the state at those keys that are covered. It goes
/// through the rows of the rule's master.
pub fn some_row_agrees(kit: &Kit, state: &State, rule: &Rule) -> bool
    requires valid { IsValid kit.now }
    requires rule_valid { IsValidRule kit.now rule.now }
    requires fits { Fits kit.now state.now }
    ensures { IsTrue result ↔ SomeRowAgrees kit.now state.now rule.now }
{
    let sought = Sought::at(kit, state, rule);
    first_row(kit.master(rule), rule, &sought).is_some()
}
