//! Sets of attributes, as a flag for each.
ghost use Rattle.std.specs.Prelude.{◌≡◌, ◌≢◌, ◌≤◌, ◌↔◌, ℕ, All, length, map, replicate, false, IsTrue};
ghost use Rattle.std.specs.Prelude.{MatchBool, vec_capacity};
ghost use Rattle.fix_model.specs.States.{is_covering};
ghost use Rattle.fix_engine.specs.Flags.{HasFlags, IsFlagged};

use fix_model::{Rule, State};

/// Flags none of so many attributes.
pub fn flag_none(flags: &mut Vec<bool>, width: u16)
    requires { width ≤ vec_capacity flags.old }
    ensures none { flags.new.items ≡ replicate width false }
    ensures room { vec_capacity flags.old ≤ vec_capacity flags.new }
{
    flags.clear();
    flags.resize(usize::from(width), false).unwrap();
}

/// Flags the covered attributes.
pub fn flag_covered(flags: &mut Vec<bool>, state: &State)
    requires { length state.now.cells ≤ vec_capacity flags.old }
    ensures covered { flags.new.items ≡ map is_covering state.now.cells }
    ensures room { vec_capacity flags.old ≤ vec_capacity flags.new }
{
    flags.clear();
    'cells: for cell in state.cells.as_slice() {
        flags.push(cell.is_covering()).unwrap();
    }
}

/// Whether the rule's keys and conditions are flagged.
pub fn has_flags(flags: &[bool], rule: &Rule) -> bool
    ensures { IsTrue result ↔ HasFlags flags.now rule.now }
{
    has_flagged_keys(flags, rule) && has_flagged_conds(flags, rule)
}

fn has_flagged_keys(flags: &[bool], rule: &Rule) -> bool
    ensures { IsTrue result ↔ All (λ key. IsFlagged flags.now key.0) rule.now.keys }
{
    rule.keys
        .as_slice()
        .iter()
        .all(|key| is_flagged(flags, key.0))
}

fn has_flagged_conds(flags: &[bool], rule: &Rule) -> bool
    ensures { IsTrue result ↔ All (λ cond. IsFlagged flags.now cond.0) rule.now.conds }
{
    rule.conds
        .as_slice()
        .iter()
        .all(|cond| is_flagged(flags, cond.0))
}

/// Whether the attribute is flagged, which it is not past the last.
pub fn is_flagged(flags: &[bool], attribute: u16) -> bool
    ensures { IsTrue result ↔ IsFlagged flags.now attribute }
{
    match flags.get(usize::from(attribute)) {
        Some(flag) => *flag,
        None => false,
    }
}

/// Whether some attribute is flagged.
pub fn has_flag(flags: &[bool]) -> bool
    ensures { MatchBool result ((attribute : ℕ) × IsFlagged flags.now attribute)
        ((attribute : ℕ) → ¬ IsFlagged flags.now attribute) }
{
    'flags: for flag in flags {
        if *flag {
            return true;
        }
    }
    false
}

/// The last place that is flagged, counted from 0, or 0 where none is.
pub fn last_flagged(flags: &[bool]) -> usize
    ensures { (place : ℕ) → IsFlagged flags.now place → (place ≤ result) × IsFlagged flags.now result }
{
    let mut last = 0;
    'flags: for (place, flag) in flags.iter().enumerate() {
        if *flag {
            last = place;
        }
    }
    last
}

/// Whether another attribute than this one is flagged. A likely one is tried first.
pub fn has_other(flags: &[bool], attribute: u16, likely: usize) -> bool
    ensures { MatchBool result ((other : ℕ) × IsFlagged flags.now other × (other ≢ attribute))
        ((other : ℕ) → IsFlagged flags.now other → other ≡ attribute) }
{
    if likely < flags.len() && flags[likely] && likely != usize::from(attribute) {
        return true;
    }
    'flags: for (place, flag) in flags.iter().enumerate() {
        if *flag && place != usize::from(attribute) {
            return true;
        }
    }
    false
}
