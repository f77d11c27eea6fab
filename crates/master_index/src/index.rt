//! The maps of a kit: one for each triple of master, key columns with their flags, and `from`.
ghost use Rattle.std.specs.Prelude.{◌≡◌, ◌+◌, ◌<◌, length, IfOk, OnOk};
ghost use Rattle.fix_model.specs.Rules.{rule_at};
ghost use Rattle.fix_model.specs.States.{Fits, value_at};
ghost use Rattle.fix_model.specs.Valid.{IsValid, IsValidRule};
ghost use Rattle.master_index.specs.Index.{IsIndexBefore, IsIndexOf, IsMapFor, rows_alike};

use crate::row_map::RowMap;
use desk_base::{List, NoMemory};
use fix_model::{Kit, Rule, State};
use std::alloc::Global;

/// The maps of a kit's triples, and for each rule the place of its map, counted from 0.
#[derive(Debug, Drop)]
pub(crate) struct Index {
    maps: List<RowMap>,
    places: List<usize>,
}

impl Index {
    /// The index of a kit.
    pub(crate) fn build(alloc: Global, kit: &Kit) -> Result<Index, NoMemory>
        requires { IsValid kit.now }
        ensures { IfOk result (IsIndexOf kit.now) }
    {
        let mut index = Index {
            maps: List::new(alloc),
            places: List::new(alloc),
        };
        'rules: for rule in 0..kit.rules.len() as u16 {
            index.add(alloc, kit, rule)?;
        }
        Ok(index)
    }

    /// Adds the next rule: it gets the map of an earlier rule with the same triple, else one of its own.
    fn add(&mut self, alloc: Global, kit: &Kit, rule: u16) -> Result<(), NoMemory>
        requires valid { IsValid kit.now }
        requires rule_within { rule < length kit.now.rules }
        requires before { IsIndexBefore kit.now rule self.old }
        ensures { OnOk result (IsIndexBefore kit.now (rule + 1) self.new) }
    {
        let place = match kit.earlier_twin(rule) {
            Some(earlier) => self.places.as_slice()[usize::from(earlier)],
            None => {
                self.maps.push(map_for(alloc, kit, kit.rule(rule))?)?;
                self.maps.len() - 1
            }
        };
        self.places.push(place)
    }

    /// The rows that are alike the state at the first key of a rule, ascending.
    pub(crate) fn rows_alike(&self, kit: &Kit, rule: u16, state: &State) -> &[u32]
        requires valid { IsValid kit.now }
        requires index { IsIndexOf kit.now self.now }
        requires rule_within { rule < length kit.now.rules }
        requires fits { Fits kit.now state.now }
        ensures { result.now ≡ rows_alike kit.now (value_at kit.now state.now) (rule_at kit.now rule) }
    {
        let map = &self.maps.as_slice()[self.places.as_slice()[usize::from(rule)]];
        let (attribute, _) = kit.rule(rule).keys.as_slice()[0];
        map.alike(kit.value(state, attribute), kit.folds(attribute))
    }
}

fn map_for(alloc: Global, kit: &Kit, rule: &Rule) -> Result<RowMap, NoMemory>
    requires valid { IsValid kit.now }
    requires rule_valid { IsValidRule kit.now rule.now }
    ensures { IfOk result (IsMapFor kit.now rule.now) }
{
    let (attribute, column) = rule.keys.as_slice()[0];
    RowMap::build(alloc, kit.master(rule), column, kit.folds(attribute))
}
