//! Which attributes have yet to be confirmed.
ghost use Rattle.std.specs.Prelude.{◌≡◌, ◌<◌, ◌≤◌, ◌↔◌, length, IfOk, IsTrue, OnOk};
ghost use Rattle.fix_model.specs.States.{Fits, IsCovered};
ghost use Rattle.fix_engine.specs.Flags.{IsFlagged};
ghost use Rattle.region_suggest.specs.Dependencies.{IsSound};
ghost use Rattle.region_suggest.specs.Need.{IsNeed};
ghost use Rattle.region_suggest.specs.Openings.{AreOpenings};
ghost use Rattle.region_suggest.specs.Trying.{AreTried, IsReachTold, IsTested};

use crate::dependencies::{Dependencies, same_flags};
use desk_base::{List, MAX_ATTRIBUTES, NoMemory};
use fix_model::{Book, State};
use std::alloc::Global;

/// The attributes that are needed at a state whose open rules have these dependencies.
pub(crate) fn needed<L, B: Book<L>>(
    alloc: Global,
    book: &B,
    state: &State,
    open_rules: &Dependencies,
) -> Result<List<u16>, NoMemory>
    requires fits { Fits (B.kit book.now) state.now }
    requires openings { AreOpenings (B.kit book.now) state.now (length (B.kit book.now).rules) open_rules.now }
    ensures { IfOk result (IsNeed (B.kit book.now) state.now) }
{
    let given = tried::<L, B>(alloc, book, state, open_rules)?;
    let mut need = List::new(alloc);
    'attributes: for attribute in 0..book.width() {
        if is_needed(&given, state, attribute) {
            need.push(attribute)?;
        }
    }
    Ok(need)
}

/// Whether the attribute is flagged, and not covered.
fn is_needed(given: &[bool], state: &State, attribute: u16) -> bool
    ensures { IsTrue result ↔ (IsFlagged given.now attribute × ¬ IsCovered state.now attribute) }
{
    match given.get(usize::from(attribute)) {
        Some(flag) => *flag && !state.covers(attribute),
        None => false,
    }
}

/// For each attribute whether it is needed or covered. It is tested after those after it.
fn tried<L, B: Book<L>>(
    alloc: Global,
    book: &B,
    state: &State,
    open_rules: &Dependencies,
) -> Result<Vec<bool>, NoMemory>
    requires fits { Fits (B.kit book.now) state.now }
    requires openings { AreOpenings (B.kit book.now) state.now (length (B.kit book.now).rules) open_rules.now }
    ensures { IfOk result (λ given. AreTried (B.kit book.now) state.now 0 given.items) }
{
    let width = book.width();
    let mut given = same_flags(alloc, true, usize::from(width))?;
    'attributes: for passed in 0..width {
        let attribute = width - 1 - passed;
        if !state.covers(attribute) {
            open_rules.test(alloc, &mut given, attribute)?;
        }
    }
    Ok(given)
}

impl Dependencies {
    /// Leaves the attribute given exactly where without it the closure of what is given is not all attributes.
    fn test(&self, alloc: Global, given: &mut [bool], attribute: u16) -> Result<(), NoMemory>
        requires sound { IsSound self.now }
        requires whole { length given.old ≡ length self.now.uses.items }
        requires narrow { length given.old ≤ MAX_ATTRIBUTES }
        requires within { attribute < length given.old }
        ensures { OnOk result (IsTested self.now given.old given.new attribute) }
    {
        let place = usize::from(attribute);
        given[place] = false;
        let reaches_all = self.reaches_all(alloc, given)?;
        given[place] = !reaches_all;
        Ok(())
    }

    /// Whether the closure of the attributes that are given is all attributes.
    fn reaches_all(&self, alloc: Global, given: &[bool]) -> Result<bool, NoMemory>
        requires sound { IsSound self.now }
        requires whole { length given.now ≡ length self.now.uses.items }
        requires narrow { length given.now ≤ MAX_ATTRIBUTES }
        ensures { IfOk result (IsReachTold self.now given.now) }
    {
        let closure = self.closure(alloc, given)?;
        Ok(closure.iter().all(|flag| *flag))
    }
}
