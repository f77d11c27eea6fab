//! How much each single confirmation is hoped to gain.
ghost use Rattle.std.specs.Prelude.{◌≡◌, ◌≤◌, ◌<◌, length, map, IfOk, count_by};
ghost use Rattle.fix_model.specs.States.{Fits, IsCovered, is_covering};
ghost use Rattle.region_suggest.specs.Gains.{AreGains, IsGain};
ghost use Rattle.region_suggest.specs.Openings.{AreOpenings};

use crate::dependencies::Dependencies;
use desk_base::{List, MAX_ATTRIBUTES, NoMemory};
use fix_model::{Book, State};
use std::alloc::Global;

/// What each uncovered attribute is hoped to gain at a state whose open rules have these dependencies.
pub(crate) fn gains<L, B: Book<L>>(
    alloc: Global,
    book: &B,
    state: &State,
    open_rules: &Dependencies,
) -> Result<List<(u16, u16)>, NoMemory>
    requires fits { Fits (B.kit book.now) state.now }
    requires openings { AreOpenings (B.kit book.now) state.now (length (B.kit book.now).rules) open_rules.now }
    ensures { IfOk result (AreGains (B.kit book.now) state.now) }
{
    let mut gains = List::new(alloc);
    'attributes: for attribute in 0..book.width() {
        if !state.covers(attribute) {
            let gain = gain_of::<L, B>(alloc, book, state, open_rules, attribute)?;
            gains.push((attribute, gain))?;
        }
    }
    Ok(gains)
}

/// How many attributes the closure of one has, beside it and the covered ones.
fn gain_of<L, B: Book<L>>(
    alloc: Global,
    book: &B,
    state: &State,
    open_rules: &Dependencies,
    attribute: u16,
) -> Result<u16, NoMemory>
    requires fits { Fits (B.kit book.now) state.now }
    requires openings { AreOpenings (B.kit book.now) state.now (length (B.kit book.now).rules) open_rules.now }
    requires narrow { (B.kit book.now).width ≤ MAX_ATTRIBUTES }
    requires attribute_within { attribute < (B.kit book.now).width }
    requires uncovered { ¬ IsCovered state.now attribute }
    ensures { IfOk result (IsGain (B.kit book.now) state.now attribute) }
{
    let mut given = covered::<L, B>(alloc, book, state)?;
    let covered_count = count(&given);
    given[usize::from(attribute)] = true;
    let closure = open_rules.closure(alloc, &given)?;
    Ok(count(&closure) - covered_count - 1)
}

/// For each attribute whether it is covered.
fn covered<L, B: Book<L>>(alloc: Global, book: &B, state: &State) -> Result<Vec<bool>, NoMemory>
    requires { Fits (B.kit book.now) state.now }
    ensures { IfOk result (λ flags. flags.items ≡ map is_covering state.now.cells) }
{
    let mut flags = Vec::new(alloc);
    'attributes: for attribute in 0..book.width() {
        flags.push(state.covers(attribute))?;
    }
    Ok(flags)
}

/// How many flags are set.
fn count(flags: &[bool]) -> u16
    requires { length flags.now ≤ MAX_ATTRIBUTES }
    ensures { result ≡ count_by (λ flag. flag) flags.now }
{
    flags.iter().filter(|flag| **flag).count() as u16
}
