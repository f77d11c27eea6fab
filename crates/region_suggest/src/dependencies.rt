//! Dependencies between attributes, and the closure of a set of attributes by them.
//!
//! The closure is found as for functional dependencies, after Beeri and Bernstein: each dependency counts the
//! attributes of its left side that are missing, so the work is linear in the sizes of the left sides.
ghost use Rattle.std.specs.Prelude.{◌≡◌, ◌+◌, ◌<◌, ◌≤◌, ◌↔◌, ◌++◌, ◌∷◌, slice_set, false, ℕ, List, [], length, map};
ghost use Rattle.std.specs.Prelude.{replicate, sum, All, Contains, IfOk, OnOk, slice_index_or, count_by, IsTrue};
ghost use Rattle.fix_engine.specs.Flags.{IsFlagged};
ghost use Rattle.region_suggest.specs.Dependencies.{AddsRule, IsClosure, IsSound, uses_of, users, with_uses};
ghost use Rattle.region_suggest.specs.Closing.{IsEnough, TakesOff};

use desk_base::{MAX_ATTRIBUTES, MAX_CONDITIONS, MAX_KEYS, MAX_RULES, NoMemory};
use fix_model::{Pat, Rule};
use std::alloc::Global;

/// Heads of rules, each with the attributes on which it depends.
#[derive(Debug, Drop)]
pub struct Dependencies {
    /// For each attribute the dependencies on whose left side it stands, once for each time.
    pub(crate) uses: Vec<Vec<u16>>,
    /// For each dependency how many attributes stand on its left side.
    pub(crate) sizes: Vec<u16>,
    /// For each dependency its head.
    pub(crate) heads: Vec<u16>,
}

impl Dependencies {
    /// No dependency between so many attributes.
    pub(crate) fn new(alloc: Global, width: u16) -> Result<Dependencies, NoMemory>
        ensures { IfOk result (λ made. (uses_of made ≡ replicate width [])
            × (made.sizes.items ≡ []) × (made.heads.items ≡ [])) }
    {
        let mut uses = Vec::new(alloc);
        'attributes: for _ in 0..width {
            uses.push(Vec::new(alloc))?;
        }
        Ok(Dependencies {
            uses,
            sizes: Vec::new(alloc),
            heads: Vec::new(alloc),
        })
    }

    /// Adds the dependency of a rule's head on its keys and conditions.
    pub(crate) fn add(&mut self, rule: &Rule) -> Result<(), NoMemory>
        requires keys_within { All (λ key. key.0 < length self.old.uses.items) rule.now.keys }
        requires conds_within { All (λ cond. cond.0 < length self.old.uses.items) rule.now.conds }
        requires few_keys { length rule.now.keys ≤ MAX_KEYS }
        requires few_conds { length rule.now.conds ≤ MAX_CONDITIONS }
        requires few { length self.old.heads.items < MAX_RULES }
        ensures { OnOk result (AddsRule self.old self.new rule.now) }
    {
        let dependency = self.heads.len() as u16;
        self.add_keys(rule.keys.as_slice(), dependency)?;
        self.add_conds(rule.conds.as_slice(), dependency)?;
        let size = rule.keys.len() + rule.conds.len();
        self.sizes.push(size as u16)?;
        self.heads.push(rule.head)?;
        Ok(())
    }

    fn add_keys(&mut self, keys: &[(u16, u16)], dependency: u16) -> Result<(), NoMemory>
        requires { All (λ key. key.0 < length self.old.uses.items) keys.now }
        ensures uses { OnOk result
            (uses_of self.new ≡ with_uses dependency (map (λ key. key.0) keys.now) (uses_of self.old)) }
        ensures width { length self.new.uses.items ≡ length self.old.uses.items }
        ensures sizes { self.new.sizes ≡ self.old.sizes }
        ensures heads { self.new.heads ≡ self.old.heads }
    {
        'keys: for key in keys {
            self.add_use(key.0, dependency)?;
        }
        Ok(())
    }

    fn add_conds(&mut self, conds: &[(u16, Pat)], dependency: u16) -> Result<(), NoMemory>
        requires { All (λ cond. cond.0 < length self.old.uses.items) conds.now }
        ensures uses { OnOk result
            (uses_of self.new ≡ with_uses dependency (map (λ cond. cond.0) conds.now) (uses_of self.old)) }
        ensures width { length self.new.uses.items ≡ length self.old.uses.items }
        ensures sizes { self.new.sizes ≡ self.old.sizes }
        ensures heads { self.new.heads ≡ self.old.heads }
    {
        'conds: for cond in conds {
            self.add_use(cond.0, dependency)?;
        }
        Ok(())
    }

    fn add_use(&mut self, attribute: u16, dependency: u16) -> Result<(), NoMemory>
        requires { attribute < length self.old.uses.items }
        ensures uses { OnOk result (uses_of self.new ≡ slice_set (uses_of self.old) attribute
            (users (uses_of self.old) attribute ++ dependency ∷ [])) }
        ensures width { length self.new.uses.items ≡ length self.old.uses.items }
        ensures sizes { self.new.sizes ≡ self.old.sizes }
        ensures heads { self.new.heads ≡ self.old.heads }
    {
        self.uses[usize::from(attribute)].push(dependency)?;
        Ok(())
    }

    /// The closure of the attributes that are given.
    pub(crate) fn closure(&self, alloc: Global, given: &[bool]) -> Result<Vec<bool>, NoMemory>
        requires sound { IsSound self.now }
        requires whole { length given.now ≡ length self.now.uses.items }
        requires narrow { length given.now ≤ MAX_ATTRIBUTES }
        ensures { IfOk result (λ flags. IsClosure self.now given.now flags.items) }
    {
        let mut flags = same_flags(alloc, false, given.len())?;
        let mut missing = Vec::from_slice(alloc, &self.sizes)?;
        let mut found = flagged(alloc, given)?;
        'found: while let Some(attribute) = found.pop() {
            if !flags[usize::from(attribute)] {
                flags[usize::from(attribute)] = true;
                self.take_off(attribute, &mut missing, &mut found)?;
            }
        }
        Ok(flags)
    }

    /// Takes an attribute off the left sides on which it stands, and finds the heads that miss nothing then.
    fn take_off(
        &self,
        attribute: u16,
        missing: &mut [u16],
        found: &mut Vec<u16>,
    ) -> Result<(), NoMemory>
        requires attribute_within { attribute < length self.now.uses.items }
        requires uses_within { All (λ one. one < length self.now.heads.items)
            (users (uses_of self.now) attribute) }
        requires whole { length missing.old ≡ length self.now.heads.items }
        requires enough { IsEnough (users (uses_of self.now) attribute) missing.old }
        ensures { OnOk result (TakesOff self.now (users (uses_of self.now) attribute)
            missing.old missing.new found.old.items found.new.items) }
    {
        'users: for dependency in &self.uses[usize::from(attribute)] {
            let place = usize::from(*dependency);
            missing[place] -= 1;
            if missing[place] == 0 {
                found.push(self.heads[place])?;
            }
        }
        Ok(())
    }
}

/// The places of the flags that are set, in their order.
fn flagged(alloc: Global, flags: &[bool]) -> Result<Vec<u16>, NoMemory>
    requires { length flags.now ≤ MAX_ATTRIBUTES }
    ensures { IfOk result (λ found. (attribute : ℕ) → Contains found.items attribute ↔ IsFlagged flags.now attribute) }
{
    let mut found = Vec::new(alloc);
    'flags: for (place, flag) in flags.iter().enumerate() {
        if *flag {
            found.push(place as u16)?;
        }
    }
    Ok(found)
}

/// So many flags, each set or each not.
pub(crate) fn same_flags(alloc: Global, flag: bool, count: usize) -> Result<Vec<bool>, NoMemory>
    ensures { IfOk result (λ flags. flags.items ≡ replicate count flag) }
{
    let mut flags = Vec::new(alloc);
    'flags: for _ in 0..count {
        flags.push(flag)?;
    }
    Ok(flags)
}
