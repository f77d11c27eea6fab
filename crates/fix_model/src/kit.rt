//! A set of rules with its master data.
ghost use Rattle.std.specs.Prelude.{◌≡◌, ◌<◌, ◌≤◌, ◌≢◌, ◌↔◌, All, AllPairs, Any, length, IsTrue};
ghost use Rattle.fix_model.specs.Valid.{IsValid, IsValidRule, AreValidKeys, AreValidConds};
ghost use Rattle.fix_model.specs.States.{Fits, value_at};
ghost use Rattle.fix_model.specs.Rules.{rule_at, master_of, step_text, IsStepOf, is_folded};

use crate::pattern::is_sized;
use crate::rule::Rule;
use crate::state::{State, Step};
use desk_base::{
    Duplicate, Grid, List, MAX_ATTRIBUTES, MAX_CONDITIONS, MAX_KEYS, MAX_MASTERS, MAX_RULES,
    MAX_TEXT, NoMemory,
};

/// Editing rules over the attributes of one schema, with the master data that they look into.
#[derive(Debug, Drop)]
pub struct Kit {
    /// How many attributes there are.
    pub width: u16,
    pub rules: List<Rule>,
    pub masters: List<Grid>,
    /// For each attribute whether keys and conditions compare it without regard to ASCII case.
    pub folded: List<bool>,
}

impl Kit {
    /// Whether the kit is one that rules can be applied with: 1 to 48 attributes, at most 200 rules and 8
    /// masters, a flag for each attribute, and in each rule 1 to 8 keys and at most 8 conditions, over
    /// attributes and columns that are there. Neither the keys nor the conditions name an attribute twice
    /// or the head. A finite set has 1 to 64 texts.
    pub fn valid(&self) -> bool
        ensures { IsTrue result ↔ IsValid self.now }
    {
        self.width >= 1
            && usize::from(self.width) <= MAX_ATTRIBUTES
            && self.rules.len() <= MAX_RULES
            && self.masters.len() <= MAX_MASTERS
            && self.folded.len() == usize::from(self.width)
            && self.has_valid_rules()
    }

    fn has_valid_rules(&self) -> bool
        ensures { IsTrue result ↔ All (IsValidRule self.now) self.now.rules }
    {
        self.rules.as_slice().iter().all(|rule| self.takes(rule))
    }

    /// Whether this rule may stand in the kit.
    fn takes(&self, rule: &Rule) -> bool
        ensures { IsTrue result ↔ IsValidRule self.now rule.now }
    {
        let Some(master) = self.masters.as_slice().get(usize::from(rule.master)) else {
            return false;
        };
        rule.head < self.width
            && rule.from < master.columns()
            && has_valid_keys(rule, self.width, master.columns())
            && has_valid_conds(rule, self.width)
    }
}

impl Kit {
    /// The rule at a place, counted from 0.
    pub fn rule(&self, place: u16) -> &Rule
        requires { place < length self.now.rules }
        ensures rule { result.now ≡ rule_at self.now place }
        ensures valid { IsValid self.now → IsValidRule self.now result.now }
    {
        &self.rules.as_slice()[usize::from(place)]
    }

    /// The master data of a rule.
    pub fn master(&self, rule: &Rule) -> &Grid
        requires { rule.now.master < length self.now.masters }
        ensures { result.now ≡ master_of self.now rule.now }
    {
        &self.masters.as_slice()[usize::from(rule.master)]
    }

    /// The text that a step gives to the head of its rule.
    pub fn step_text(&self, step: Step) -> &str
        requires valid { IsValid self.now }
        requires step { IsStepOf self.now step }
        ensures text { result.now ≡ step_text self.now step }
        ensures fits { length result.now ≤ MAX_TEXT }
    {
        let rule = self.rule(step.rule);
        self.master(rule).cell(step.row, rule.from)
    }

    /// The value of an attribute, as `value` has it over a book.
    pub fn value<'a>(&'a self, state: &'a State, attribute: u16) -> &'a str
        requires valid { IsValid self.now }
        requires fits { Fits self.now state.now }
        requires attribute_within { attribute < self.now.width }
        ensures text { result.now ≡ value_at self.now state.now attribute }
        ensures fits { length result.now ≤ MAX_TEXT }
    {
        match state.fixed_by(attribute) {
            Some(step) => self.step_text(step),
            None => state.typed.as_slice()[usize::from(attribute)].as_str(),
        }
    }

    /// Whether keys and conditions compare this attribute without regard to ASCII case.
    pub fn folds(&self, attribute: u16) -> bool
        requires valid { IsValid self.now }
        requires attribute_within { attribute < self.now.width }
        ensures { result ≡ is_folded self.now attribute }
    {
        self.folded.as_slice()[usize::from(attribute)]
    }
}

fn has_valid_keys(rule: &Rule, width: u16, columns: u16) -> bool
    ensures { IsTrue result ↔ AreValidKeys width columns rule.now.head rule.now.keys }
{
    let keys = rule.keys.as_slice();
    !keys.is_empty()
        && keys.len() <= MAX_KEYS
        && keys.iter().all(|key| key.0 < width)
        && keys.iter().all(|key| key.0 != rule.head)
        && keys.iter().all(|key| key.1 < columns)
        && has_distinct_attributes(keys)
}

fn has_valid_conds(rule: &Rule, width: u16) -> bool
    ensures { IsTrue result ↔ AreValidConds width rule.now.head rule.now.conds }
{
    let conds = rule.conds.as_slice();
    conds.len() <= MAX_CONDITIONS
        && conds.iter().all(|cond| cond.0 < width)
        && conds.iter().all(|cond| cond.0 != rule.head)
        && conds.iter().all(|cond| is_sized(&cond.1))
        && has_distinct_attributes(conds)
}

fn has_distinct_attributes<T>(pairs: &[(u16, T)]) -> bool
    ensures { IsTrue result ↔ AllPairs (λ pair later. pair.0 ≢ later.0) pairs.now }
{
    'pairs: for (place, pair) in pairs.iter().enumerate() {
        if names(&pairs[place + 1..], pair.0) {
            return false;
        }
    }
    true
}

/// Whether one of the pairs is of the attribute.
pub(crate) fn names<T>(pairs: &[(u16, T)], attribute: u16) -> bool
    ensures { IsTrue result ↔ Any (λ pair. attribute ≡ pair.0) pairs.now }
{
    'pairs: for pair in pairs {
        if pair.0 == attribute {
            return true;
        }
    }
    false
}

impl Duplicate for Kit {
    fn copy(&self) -> Result<Kit, NoMemory> {
        Ok(Kit {
            width: self.width,
            rules: self.rules.copy()?,
            masters: self.masters.copy()?,
            folded: self.folded.copy()?,
        })
    }
}
