//! The book over a kit with an index of its masters.
ghost use Rattle.std.specs.Prelude.{◌≡◌, ◌<◌, ◌↔◌, ℕ, IfOk, IsErrOf};
ghost use Rattle.fix_model.specs.Entries.{entries};
ghost use Rattle.fix_model.specs.Valid.{IsValid};

use crate::error::BuildFault;
use crate::index::Index;
use crate::looks::{first_among, hit_among};
use desk_base::{MAX_ENTRIES, Steps};
use fix_model::{Book, Hit, Kit, Sought, State, some_row_agrees};
use std::alloc::Global;
use std::marker::Model;

/// A valid kit as a book, with an index of its masters. A look for the rows of a rule whose first key is
/// covered goes through those rows alone that are alike the value there.
#[derive(Debug, Drop)]
pub struct MapBook {
    inside: Kit,
    index: Index,
}

impl Model for MapBook {
    ghost use Rattle.fix_model.specs.declared.kit.Kit.{Kit};
    ghost use Rattle.fix_model.specs.Valid.{IsValid};
    ghost use Rattle.master_index.specs.Index.{IsIndexOf};

    ghost Value = { Kit };

    ghost view = { λ b. b.inside };

    ghost invariant = { λ b. IsValid b.inside × IsIndexOf b.inside b.index };
}

impl MapBook {
    /// The book over this kit. Where the kit has more entries than `MAX_ENTRIES`, it is refused with their
    /// number.
    pub fn build(alloc: Global, kit: Kit) -> Result<MapBook, BuildFault>
        requires { IsValid kit }
        ensures book { IfOk result (λ book. book ≡ kit) }
        ensures too_wide { (count : ℕ) → IsErrOf result (BuildFault.TooWide count)
            ↔ ((count ≡ entries kit) × (MAX_ENTRIES < count)) }
    {
        let entries = kit.entries();
        if entries > MAX_ENTRIES {
            return Err(BuildFault::TooWide(entries));
        }
        match Index::build(alloc, &kit) {
            Ok(index) => Ok(MapBook { inside: kit, index }),
            Err(_) => Err(BuildFault::NoMemory),
        }
    }
}

impl<L> Book<L> for MapBook {
    ghost kit = { λ b. b };

    fn inside(&self) -> &Kit {
        &self.inside
    }

    fn earliest(&self, rule: u16) -> u16 {
        rule
    }

    fn find(&self, rule: u16, state: &State, counts: &mut Steps<L>) -> Option<Hit> {
        counts.look();
        let this = self.inside.rule(rule);
        let sought = Sought::at(&self.inside, state, this);
        let rows = self.index.rows_alike(&self.inside, rule, state);
        hit_among(self.inside.master(this), this, &sought, rows)
    }

    fn agrees(&self, rule: u16, state: &State, counts: &mut Steps<L>) -> bool {
        counts.look();
        let this = self.inside.rule(rule);
        if !state.covers(this.keys.as_slice()[0].0) {
            return some_row_agrees(&self.inside, state, this);
        }
        let sought = Sought::at(&self.inside, state, this);
        let rows = self.index.rows_alike(&self.inside, rule, state);
        first_among(self.inside.master(this), this, &sought, rows).is_some()
    }
}
