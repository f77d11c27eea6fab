//! How many entries an index over the masters of a kit holds.
ghost use Rattle.std.specs.Prelude.{◌≡◌, ◌<◌, length};
ghost use Rattle.std.specs.Cmp.Lexicographic.{pointwise};
ghost use Rattle.fix_model.specs.Entries.{earlier_twin, entries, has_same_triple, is_same_key};
ghost use Rattle.fix_model.specs.Rules.{rule_at};
ghost use Rattle.fix_model.specs.Valid.{IsValid, IsValidRule};

use crate::kit::Kit;
use crate::rule::Rule;

impl Kit {
    /// How many entries an index over the kit holds: the rows of the master of each rule, counted once
    /// for all rules that share their master, their key columns with the folded flags, and `from`.
    pub fn entries(&self) -> u64
        requires { IsValid self.now }
        ensures { result ≡ entries self.now }
    {
        let mut entries = 0;
        'places: for place in 0..self.rules.len() as u16 {
            if self.earlier_twin(place).is_none() {
                entries += u64::from(self.master(self.rule(place)).rows());
            }
        }
        entries
    }

    /// The first rule before the one at a place, counted from 0, that has the same master, the same key
    /// columns with the same folded flags, and the same `from`.
    pub fn earlier_twin(&self, place: u16) -> Option<u16>
        requires valid { IsValid self.now }
        requires place_within { place < length self.now.rules }
        ensures { result ≡ earlier_twin self.now place }
    {
        let rule = self.rule(place);
        'rules: for earlier in 0..place {
            if self.has_same_triple(rule, self.rule(earlier)) {
                return Some(earlier);
            }
        }
        None
    }

    fn has_same_triple(&self, rule: &Rule, other: &Rule) -> bool
        requires valid { IsValid self.now }
        requires rule_valid { IsValidRule self.now rule.now }
        requires other_valid { IsValidRule self.now other.now }
        ensures { result ≡ has_same_triple self.now rule.now other.now }
    {
        rule.master == other.master && self.has_same_keys(rule, other) && rule.from == other.from
    }

    fn has_same_keys(&self, rule: &Rule, other: &Rule) -> bool
        requires valid { IsValid self.now }
        requires rule_valid { IsValidRule self.now rule.now }
        requires other_valid { IsValidRule self.now other.now }
        ensures { result ≡ pointwise (is_same_key self.now) rule.now.keys other.now.keys }
    {
        let others = other.keys.as_slice();
        if rule.keys.len() != others.len() {
            return false;
        }
        'keys: for (place, key) in rule.keys.as_slice().iter().enumerate() {
            if !self.is_same_key(*key, others[place]) {
                return false;
            }
        }
        true
    }

    fn is_same_key(&self, key: (u16, u16), other: (u16, u16)) -> bool
        requires valid { IsValid self.now }
        requires key_within { key.0 < self.now.width }
        requires other_within { other.0 < self.now.width }
        ensures { result ≡ is_same_key self.now key other }
    {
        key.1 == other.1 && self.folds(key.0) == self.folds(other.0)
    }
}
