//! Look-ups over one valid kit.
ghost use Rattle.std.specs.Prelude.{◌≡◌, ◌+◌, ◌-◌, ◌^◌, ◌<◌, ◌≤◌, ◌↔◌, All, IfOk, min, length, IsTrue};
ghost use Rattle.fix_model.specs.declared.kit.Kit.{Kit as KitOf};
ghost use Rattle.fix_model.specs.Hit.{IsFound, SharesLook, SomeRowAgrees};
ghost use Rattle.fix_model.specs.Rules.{rule_at, step_text, IsStepOf, is_folded};
ghost use Rattle.fix_model.specs.States.{Fits, IsCovered, value_at};
ghost use Rattle.fix_model.specs.Application.{AreMatched, IsEnabled, covers_left_side};
ghost use Rattle.fix_model.specs.Valid.{IsValid, IsValidRule};
ghost use Rattle.fix_model.specs.Waits.{NoneWaitsBefore};

use crate::kit::Kit;
use crate::pattern::matches;
use crate::rule::Rule;
use crate::sharing::earliest_for;
use crate::state::{State, Step};
use crate::waiting::first_waiting;
use desk_base::{Duplicate, MAX_TEXT, NoMemory, Steps, Text};

/// What a look for master rows found: the least usable row that agrees with the record at the rule's
/// keys, and the least such row that gives another text, or none. Rows count from 0.
#[derive(Clone, Copy, Debug, PartialEq, Eq)]
pub struct Hit {
    pub first: u32,
    pub other: Option<u32>,
}

/// A valid kit after look-ups. Its calls succeed whatever memory there is.
pub trait Book<L> {
    /// The kit that is looked into.
    ghost kit: { Self → KitOf };

    /// That kit.
    fn inside(&self) -> &Kit
        ensures inside { result.now ≡ kit self.now }
        ensures valid { IsValid (kit self.now) };

    /// How many attributes there are, 1 to 48.
    fn width(&self) -> u16
        ensures width { result ≡ (kit self.now).width }
        ensures valid { IsValid (kit self.now) }
    {
        self.inside().width
    }

    /// The rules of the kit.
    fn rules(&self) -> &[Rule]
        ensures rules { result.now ≡ (kit self.now).rules }
        ensures valid { IsValid (kit self.now) }
    {
        self.inside().rules.as_slice()
    }

    /// Whether keys and conditions compare this attribute without regard to ASCII case.
    fn folds(&self, attribute: u16) -> bool
        requires { attribute < (kit self.now).width }
        ensures { result ≡ is_folded (kit self.now) attribute }
    {
        self.inside().folds(attribute)
    }

    /// The text that the step gives to the head of its rule, of at most 200 bytes.
    fn text(&self, step: Step) -> &str
        requires { IsStepOf (kit self.now) step }
        ensures text { result.now ≡ step_text (kit self.now) step }
        ensures fits { length result.now ≤ MAX_TEXT }
    {
        self.inside().step_text(step)
    }

    /// The rule itself, or an earlier one with the same keys, conditions, master and `from`, so that one look serves
    /// both. How early it is stays open.
    fn earliest(&self, rule: u16) -> u16
        requires { rule < length (kit self.now).rules }
        ensures { SharesLook (kit self.now) rule result }
    {
        earliest_for(self.inside(), rule)
    }

    /// A rule before which none waits for the attribute: none has it among its keys or conditions. How late it is stays
    /// open.
    fn first_waiting(&self, attribute: u16) -> u16
        ensures { NoneWaitsBefore (kit self.now) attribute result }
    {
        first_waiting(self.inside(), attribute)
    }

    /// Looks for the usable rows of the rule that agree with the state at all its keys, and counts one
    /// look. There is nothing exactly where no row agrees.
    fn find(&self, rule: u16, state: &State, counts: &mut Steps<L>) -> Option<Hit>
        requires rule_within { rule < length (kit self.now).rules }
        requires fits { Fits (kit self.now) state.now }
        requires covered { All (λ key. IsCovered state.now key.0) (rule_at (kit self.now) rule).keys }
        ensures found { IsFound (kit self.now) (value_at (kit self.now) state.now)
            (rule_at (kit self.now) rule) result }
        ensures looks { counts.new.looks ≡ min (counts.old.looks + 1) (2 ^ 64 - 1) }
        ensures compares { counts.old.compares ≤ counts.new.compares };

    /// Whether some usable row of the rule agrees with the state at those keys that are covered. It
    /// counts one look.
    fn agrees(&self, rule: u16, state: &State, counts: &mut Steps<L>) -> bool
        requires rule_within { rule < length (kit self.now).rules }
        requires fits { Fits (kit self.now) state.now }
        ensures agrees { IsTrue result ↔ SomeRowAgrees (kit self.now) state.now (rule_at (kit self.now) rule) }
        ensures looks { counts.new.looks ≡ min (counts.old.looks + 1) (2 ^ 64 - 1) }
        ensures compares { counts.old.compares ≤ counts.new.compares };
}

/// The value of an attribute, counted from 0: the text of the step that fixed it, else the typed text.
pub fn value<'a, L, B: Book<L>>(book: &'a B, state: &'a State, attribute: u16) -> &'a str
    requires fits { Fits (B.kit book.now) state.now }
    requires attribute_within { attribute < (B.kit book.now).width }
    ensures text { result.now ≡ value_at (B.kit book.now) state.now attribute }
    ensures fits { length result.now ≤ MAX_TEXT }
{
    match state.fixed_by(attribute) {
        Some(step) => book.text(step),
        None => state.typed.as_slice()[usize::from(attribute)].as_str(),
    }
}

/// The value of an attribute, counted from 0, as a text of its own.
pub fn value_text<L, B: Book<L>>(book: &B, state: &State, attribute: u16) -> Result<Text, NoMemory>
    requires fits { Fits (B.kit book.now) state.now }
    requires attribute_within { attribute < (B.kit book.now).width }
    ensures { IfOk result (λ text. text ≡ value_at (B.kit book.now) state.now attribute) }
{
    match state.fixed_by(attribute) {
        Some(step) => Text::of(state.typed.allocator(), book.text(step)),
        None => state.typed.as_slice()[usize::from(attribute)].copy(),
    }
}

/// Whether the keys and the conditions of a rule are covered, and each condition matches the value of its
/// attribute. It succeeds whatever memory there is.
pub fn enabled<L, B: Book<L>>(book: &B, state: &State, rule: &Rule) -> bool
    requires fits { Fits (B.kit book.now) state.now }
    requires rule_valid { IsValidRule (B.kit book.now) rule.now }
    ensures { IsTrue result ↔ IsEnabled (B.kit book.now) state.now rule.now }
{
    has_covered_keys(state, rule)
        && has_covered_conds(state, rule)
        && are_matched::<L, B>(book, state, rule)
}

/// Whether the keys and the conditions of a rule are covered.
pub fn covers_left_side(state: &State, rule: &Rule) -> bool
    ensures { result ≡ covers_left_side state.now rule.now }
{
    has_covered_keys(state, rule) && has_covered_conds(state, rule)
}

/// Whether the keys of a rule are covered.
pub fn has_covered_keys(state: &State, rule: &Rule) -> bool
    ensures { IsTrue result ↔ All (λ key. IsCovered state.now key.0) rule.now.keys }
{
    rule.keys.as_slice().iter().all(|key| state.covers(key.0))
}

fn has_covered_conds(state: &State, rule: &Rule) -> bool
    ensures { IsTrue result ↔ All (λ cond. IsCovered state.now cond.0) rule.now.conds }
{
    rule.conds
        .as_slice()
        .iter()
        .all(|cond| state.covers(cond.0))
}

fn are_matched<L, B: Book<L>>(book: &B, state: &State, rule: &Rule) -> bool
    requires fits { Fits (B.kit book.now) state.now }
    requires rule_valid { IsValidRule (B.kit book.now) rule.now }
    ensures { IsTrue result ↔ AreMatched (B.kit book.now) (value_at (B.kit book.now) state.now) rule.now }
{
    'conds: for cond in rule.conds.as_slice() {
        let text = value::<L, B>(book, state, cond.0);
        if !matches(&cond.1, text, book.folds(cond.0)) {
            return false;
        }
    }
    true
}
