//! The rows of a master that agree with a record at the covered keys of a rule. The values there are looked
//! up once, and a clause sees them as the list of what is sought.
ghost use Rattle.std.specs.Prelude.{◌≡◌, ◌≢◌, ◌<◌, ◌↔◌, ◌∷◌, ◌++◌, [], All, length, IsTrue, MatchBool};
ghost use Rattle.desk_base.specs.Grid.{cell_text};
ghost use Rattle.fix_model.specs.Alike.{AreAlike};
ghost use Rattle.fix_model.specs.Application.{IsUsableIn};
ghost use Rattle.fix_model.specs.Sought.{HasColumns, Meets, aims_of};
ghost use Rattle.fix_model.specs.States.{Fits};
ghost use Rattle.fix_model.specs.Valid.{IsValid, IsValidRule};

use crate::comparison::alike;
use crate::kit::Kit;
use crate::rule::Rule;
use crate::state::State;
use desk_base::{Grid, MAX_KEYS};
use std::marker::Model;

/// A text that is sought in a column of a master.
#[derive(Clone, Copy, Debug)]
pub(crate) struct SoughtText<'a> {
    column: u16,
    text: &'a str,
    folded: bool,
}

/// What a look seeks: the values at the covered keys of a rule, at most 8, each looked up once.
#[derive(Debug, Drop)]
pub struct Sought<'a> {
    texts: [SoughtText<'a>; MAX_KEYS],
    count: usize,
}

impl<'a> Model for Sought<'a> {
    ghost use Rattle.std.specs.Prelude.{◌≡◌, ◌≤◌, List, length, map, take};
    ghost use Rattle.desk_base.specs.declared.limits.TheConstants.{MAX_KEYS};
    ghost use Rattle.fix_model.specs.Sought.{Aim, aim_code, aim_of};
    ghost use Rattle.std.specs.Coded.{coded_list};

    ghost Value = { List Aim };

    ghost coded = { coded_list aim_code };

    ghost view = { λ s. map aim_of (take s.count s.texts) };

    ghost invariant = { λ s. (length s.texts ≡ MAX_KEYS) × (s.count ≤ MAX_KEYS) };
}

impl<'a> Sought<'a> {
    /// What a look for a rule seeks.
    pub fn at(kit: &'a Kit, state: &'a State, rule: &Rule) -> Sought<'a>
        requires valid { IsValid kit.now }
        requires rule_valid { IsValidRule kit.now rule.now }
        requires fits { Fits kit.now state.now }
        ensures { result ≡ aims_of kit.now state.now rule.now }
    {
        let nothing = SoughtText {
            column: 0,
            text: "",
            folded: false,
        };
        let mut sought = Sought {
            texts: [nothing; MAX_KEYS],
            count: 0,
        };
        'keys: for key in rule.keys.as_slice() {
            if state.covers(key.0) {
                let text = kit.value(state, key.0);
                sought.add(key.1, text, kit.folds(key.0));
            }
        }
        sought
    }

    fn add(&mut self, column: u16, text: &'a str, folded: bool)
        requires { length self.old < MAX_KEYS }
        ensures { self.new ≡ self.old ++ (record { column = column; text = text.now; folded = folded }) ∷ [] }
    {
        self.texts[self.count] = SoughtText {
            column,
            text,
            folded,
        };
        self.count += 1;
    }

    /// Whether a row is usable for the rule, and agrees with all that is sought.
    pub fn agrees(&self, master: &Grid, rule: &Rule, row: u32) -> bool
        requires columns { HasColumns master.now rule.now self.now }
        requires row_within { row < length master.now.rows }
        ensures { IsTrue result ↔ Meets master.now rule.now self.now row }
    {
        self.is_alike(master, row) && is_usable(master, rule, row)
    }

    /// Whether a row is usable and agrees with all that is sought, and gives another text than the first one.
    pub fn gives_other(&self, master: &Grid, rule: &Rule, first: u32, row: u32) -> bool
        requires columns { HasColumns master.now rule.now self.now }
        requires first_within { first < length master.now.rows }
        requires row_within { row < length master.now.rows }
        ensures { MatchBool result
            (Meets master.now rule.now self.now row
            × (cell_text master.now row rule.now.from ≢ cell_text master.now first rule.now.from))
            (Meets master.now rule.now self.now row
            → cell_text master.now row rule.now.from ≡ cell_text master.now first rule.now.from) }
    {
        if !self.agrees(master, rule, row) {
            return false;
        }
        master.cell(row, rule.from) != master.cell(first, rule.from)
    }

    fn is_alike(&self, master: &Grid, row: u32) -> bool
        requires row_within { row < length master.now.rows }
        requires columns { All (λ aim. aim.column < master.now.columns) self.now }
        ensures { IsTrue result
            ↔ All (λ aim. AreAlike aim.folded aim.text (cell_text master.now row aim.column)) self.now }
    {
        'texts: for sought in &self.texts[..self.count] {
            let cell = master.cell(row, sought.column);
            if !alike(sought.text, cell, sought.folded) {
                return false;
            }
        }
        true
    }
}

/// Whether a row is usable for a rule: its cells at the rule's keys and its `from` cell are no blanks.
pub fn is_usable(master: &Grid, rule: &Rule, row: u32) -> bool
    requires row_within { row < length master.now.rows }
    requires keys { All (λ key. key.1 < master.now.columns) rule.now.keys }
    requires from { rule.now.from < master.now.columns }
    ensures { IsTrue result ↔ IsUsableIn master.now rule.now row }
{
    !master.cell(row, rule.from).is_empty() && has_usable_keys(master, rule, row)
}

fn has_usable_keys(master: &Grid, rule: &Rule, row: u32) -> bool
    requires row_within { row < length master.now.rows }
    requires keys { All (λ key. key.1 < master.now.columns) rule.now.keys }
    ensures { IsTrue result ↔ All (λ key. cell_text master.now row key.1 ≢ []) rule.now.keys }
{
    'keys: for key in rule.keys.as_slice() {
        if master.cell(row, key.1).is_empty() {
            return false;
        }
    }
    true
}
