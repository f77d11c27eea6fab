//! Which rules are open, and which attributes depend on which by them.
ghost use Rattle.std.specs.Prelude.{◌≡◌, ◌+◌, ◌<◌, ◌≤◌, ◌↔◌, length, if◌then◌else◌, IfOk, IsTrue};
ghost use Rattle.fix_model.specs.Application.{covered_left_sides, covers_left_side};
ghost use Rattle.fix_model.specs.Pattern.{Matches};
ghost use Rattle.fix_model.specs.Rules.{is_folded, rule_at};
ghost use Rattle.fix_model.specs.Run.{IsFinal};
ghost use Rattle.fix_model.specs.States.{Fits, IsCovered, value_at};
ghost use Rattle.fix_model.specs.Valid.{IsValidRule};
ghost use Rattle.region_suggest.specs.Hope.{AreMatchedWhereCovered, IsOpen};
ghost use Rattle.region_suggest.specs.Openings.{AreOpenings};

use crate::dependencies::Dependencies;
use desk_base::{NoMemory, Steps};
use fix_model::{Book, Pat, Rule, State, covers_left_side, matches, value};
use std::alloc::Global;

/// The dependencies of the rules that are open at a state where nothing fires. The book is asked once at most for
/// each rule whose keys and conditions are not all covered: where they are, the rule is not open there.
pub(crate) fn open_rules<L, B: Book<L>>(
    alloc: Global,
    book: &B,
    state: &State,
    counts: &mut Steps<L>,
) -> Result<Dependencies, NoMemory>
    requires fits { Fits (B.kit book.now) state.now }
    requires ended { IsFinal (B.kit book.now) state.now }
    ensures openings { IfOk result
        (AreOpenings (B.kit book.now) state.now (length (B.kit book.now).rules)) }
    ensures looks { counts.new.looks + covered_left_sides (B.kit book.now) state.now
        ≤ counts.old.looks + length (B.kit book.now).rules }
{
    let mut made = Dependencies::new(alloc, book.width())?;
    'rules: for place in 0..book.rules().len() as u16 {
        if is_open(book, state, place, counts) {
            made.add(&book.rules()[usize::from(place)])?;
        }
    }
    Ok(made)
}

/// Whether the rule is open at the state.
fn is_open<L, B: Book<L>>(book: &B, state: &State, place: u16, counts: &mut Steps<L>) -> bool
    requires fits { Fits (B.kit book.now) state.now }
    requires ended { IsFinal (B.kit book.now) state.now }
    requires place_within { place < length (B.kit book.now).rules }
    ensures open { IsTrue result ↔ IsOpen (B.kit book.now) state.now (rule_at (B.kit book.now) place) }
    ensures looks { counts.new.looks ≤ counts.old.looks
        + (if covers_left_side state.now (rule_at (B.kit book.now) place) then 0 else 1) }
{
    let rule = &book.rules()[usize::from(place)];
    if state.covers(rule.head) || covers_left_side(state, rule) {
        return false;
    }
    is_matched_where_covered::<L, B>(book, state, rule) && book.agrees(place, state, counts)
}

/// Whether each condition whose attribute is covered matches the value there.
fn is_matched_where_covered<L, B: Book<L>>(book: &B, state: &State, rule: &Rule) -> bool
    requires fits { Fits (B.kit book.now) state.now }
    requires rule_valid { IsValidRule (B.kit book.now) rule.now }
    ensures { IsTrue result ↔ AreMatchedWhereCovered (B.kit book.now) state.now rule.now }
{
    'conds: for cond in rule.conds.as_slice() {
        if !matches_where_covered::<L, B>(book, state, cond.0, &cond.1) {
            return false;
        }
    }
    true
}

/// Whether the pattern matches the value of the attribute, if that is covered.
fn matches_where_covered<L, B: Book<L>>(
    book: &B,
    state: &State,
    attribute: u16,
    pattern: &Pat,
) -> bool
    requires fits { Fits (B.kit book.now) state.now }
    requires attribute_within { attribute < (B.kit book.now).width }
    ensures { IsTrue result ↔ (IsCovered state.now attribute
        → Matches (is_folded (B.kit book.now) attribute) pattern.now (value_at (B.kit book.now) state.now attribute)) }
{
    if !state.covers(attribute) {
        return true;
    }
    let text = value::<L, B>(book, state, attribute);
    matches(pattern, text, book.folds(attribute))
}
