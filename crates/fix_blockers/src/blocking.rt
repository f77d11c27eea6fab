//! What stands in the way of one rule.
ghost use Rattle.std.specs.Prelude.{◌≡◌, ◌<◌, ◌++◌, length, filter, map, IfOk, OnOk, MatchOption, All};
ghost use Rattle.fix_model.specs.Application.{AreMatched};
ghost use Rattle.fix_model.specs.Rules.{rule_at};
ghost use Rattle.fix_model.specs.Run.{IsFinal};
ghost use Rattle.fix_model.specs.States.{Fits, IsCovered, value_at};
ghost use Rattle.fix_model.specs.Valid.{IsValidRule};
ghost use Rattle.fix_blockers.specs.Blockers.{IsBlocker, IsFirstUnmet, is_key, is_uncovered, key_attributes};
ghost use Rattle.fix_blockers.specs.Blockers.{other_attributes, unknown};

use crate::blocker::Blocker;
use desk_base::{List, NoMemory};
use fix_model::{Book, Rule, State, matches, value};
use std::alloc::Global;

/// What stands in the way of the rule at a place, counted from 0, whose head is not covered, where nothing fires.
pub(crate) fn blocker_of<L, B: Book<L>>(
    alloc: Global,
    book: &B,
    state: &State,
    place: u16,
) -> Result<Blocker, NoMemory>
    requires fits { Fits (B.kit book.now) state.now }
    requires ended { IsFinal (B.kit book.now) state.now }
    requires within { place < length (B.kit book.now).rules }
    requires uncovered { ¬ IsCovered state.now (rule_at (B.kit book.now) place).head }
    ensures { IfOk result (IsBlocker (B.kit book.now) state.now (rule_at (B.kit book.now) place)) }
{
    let rule = rule_at::<L, B>(book, place);
    let unknown = unknown(alloc, state, rule)?;
    if !unknown.is_empty() {
        return Ok(Blocker::Unknown(unknown));
    }
    match first_unmet::<L, B>(book, state, rule) {
        Some(attribute) => Ok(Blocker::Pattern(attribute)),
        None => Ok(Blocker::NoRow),
    }
}

/// The rule at a place, counted from 0.
pub(crate) fn rule_at<L, B: Book<L>>(book: &B, place: u16) -> &Rule
    requires { place < length (B.kit book.now).rules }
    ensures rule { result.now ≡ rule_at (B.kit book.now) place }
    ensures valid { IsValidRule (B.kit book.now) result.now }
{
    &book.rules()[usize::from(place)]
}

/// The attributes of a rule's keys and conditions that are not covered.
fn unknown(alloc: Global, state: &State, rule: &Rule) -> Result<List<u16>, NoMemory>
    ensures { IfOk result (λ found. found ≡ unknown state.now rule.now) }
{
    let mut unknown = List::new(alloc);
    add_keys(&mut unknown, state, rule)?;
    add_others(&mut unknown, state, rule)?;
    Ok(unknown)
}

/// Adds the keys that are not covered.
fn add_keys(unknown: &mut List<u16>, state: &State, rule: &Rule) -> Result<(), NoMemory>
    ensures { OnOk result
        (unknown.new ≡ unknown.old ++ filter (is_uncovered state.now) (key_attributes rule.now)) }
{
    'keys: for key in rule.keys.as_slice() {
        if !state.covers(key.0) {
            unknown.push(key.0)?;
        }
    }
    Ok(())
}

/// Adds the attributes of conditions that are not covered, but for keys.
fn add_others(unknown: &mut List<u16>, state: &State, rule: &Rule) -> Result<(), NoMemory>
    ensures { OnOk result
        (unknown.new ≡ unknown.old ++ filter (is_uncovered state.now) (other_attributes rule.now)) }
{
    'conds: for cond in rule.conds.as_slice() {
        if !state.covers(cond.0) && !is_key(rule, cond.0) {
            unknown.push(cond.0)?;
        }
    }
    Ok(())
}

fn is_key(rule: &Rule, attribute: u16) -> bool
    ensures { result ≡ is_key rule.now attribute }
{
    rule.keys.as_slice().iter().any(|key| key.0 == attribute)
}

/// The attribute of the first condition that does not match, or none where all match.
fn first_unmet<L, B: Book<L>>(book: &B, state: &State, rule: &Rule) -> Option<u16>
    requires fits { Fits (B.kit book.now) state.now }
    requires rule_valid { IsValidRule (B.kit book.now) rule.now }
    ensures { MatchOption result
        (AreMatched (B.kit book.now) (value_at (B.kit book.now) state.now) rule.now)
        (IsFirstUnmet (B.kit book.now) state.now rule.now) }
{
    'conds: for cond in rule.conds.as_slice() {
        let text = value::<L, B>(book, state, cond.0);
        if !matches(&cond.1, text, book.folds(cond.0)) {
            return Some(cond.0);
        }
    }
    None
}
