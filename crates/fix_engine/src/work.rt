//! The room that the engine works in, taken once.
ghost use Rattle.std.specs.Prelude.{◌≡◌, [], IfOk};

use crate::search::Search;
use desk_base::NoMemory;
use fix_model::Step;
use std::alloc::Global;
use std::marker::Model;

/// Room for the calls of the engine, which succeed whatever memory there is.
#[derive(Debug, Drop)]
pub struct Work {
    pub(crate) search: Search,
    pub(crate) attributes: u16,
    pub(crate) rule_count: u16,
}

impl Model for Work {
    ghost use Rattle.fix_engine.specs.Searches.{HasRoom};
    ghost use Rattle.fix_engine.specs.WorkSeen.{WorkSeen};
    ghost use Rattle.fix_engine.specs.Coding.{work_seen_code};

    ghost Value = { WorkSeen };

    ghost coded = { work_seen_code };

    ghost view = { λ w. record {
      first = w.search.runs.first.items;
      second = w.search.runs.second.items;
      width = w.attributes;
      rules = w.rule_count;
    } };

    ghost invariant = { λ w. HasRoom w.attributes w.rule_count w.search };
}

impl Work {
    /// Room for kits of at most so many attributes and rules. No run is left in it yet.
    pub fn new(alloc: Global, width: u16, rules: u16) -> Result<Work, NoMemory>
        ensures { IfOk result (λ work. work ≡ record { first = []; second = []; width = width; rules = rules }) }
    {
        Ok(Work {
            search: Search::new(alloc, width, rules)?,
            attributes: width,
            rule_count: rules,
        })
    }

    /// The first run that the last call left.
    pub fn first(&self) -> &[Step]
        ensures { result.now ≡ self.now.first }
    {
        self.search.runs.first.as_slice()
    }

    /// The second run that the last call left, empty where it left none.
    pub fn second(&self) -> &[Step]
        ensures { result.now ≡ self.now.second }
    {
        self.search.runs.second.as_slice()
    }
}
