//! The book over a kit with a sorted index of its masters.
ghost use Rattle.std.specs.Prelude.{◌≡◌, ◌+◌, ◌-◌, ◌^◌, ◌<◌, ◌≤◌, ◌↔◌, ℕ, All, length, min, IfOk, IsErrOf};
ghost use Rattle.fix_model.specs.Entries.{entries};
ghost use Rattle.fix_model.specs.Hit.{IsFound};
ghost use Rattle.fix_model.specs.Rules.{master_of, rule_at};
ghost use Rattle.fix_model.specs.States.{Fits, IsCovered, value_at};
ghost use Rattle.fix_model.specs.Valid.{IsValid};
ghost use Rattle.master_index.specs.Counts.{RisesByDigits};
ghost use Rattle.master_index.specs.Parts.{ArePartsBefore, IsPartOf};
ghost use Rattle.master_index.specs.Sorted.{AreEntriesOf};

use crate::earliest::earliest_of;
use crate::error::BuildFault;
use crate::part::Part;
use crate::search::entry_at;
use crate::triples::Triples;
use crate::waits::waits_of;
use desk_base::{List, MAX_ENTRIES, NoMemory, Steps};
use fix_model::{Book, Hit, Kit, State, has_covered_keys, some_row_agrees};
use std::alloc::Global;
use std::marker::Model;

/// A valid kit as a book, with a sorted index of its masters: for each triple one entry of two row numbers
/// for each key that its usable rows have. A look for the rows of a rule makes at most as many comparisons
/// as the rows of its master have binary digits.
#[derive(Debug, Drop)]
pub struct SortedBook {
    inside: Kit,
    triples: Triples,
    parts: List<Part>,
    earliest: List<u16>,
    waits: List<u16>,
}

impl Model for SortedBook {
    ghost use Rattle.std.specs.Prelude.{length};
    ghost use Rattle.fix_model.specs.declared.kit.Kit.{Kit};
    ghost use Rattle.fix_model.specs.Valid.{IsValid};
    ghost use Rattle.master_index.specs.Earliest.{ShareLooksBefore};
    ghost use Rattle.master_index.specs.Parts.{ArePartsBefore};
    ghost use Rattle.master_index.specs.Triples.{AreTriplesOf};
    ghost use Rattle.master_index.specs.Waits.{AreWaitsBefore};

    ghost Value = { Kit };

    ghost view = { λ b. b.inside };

    ghost invariant = { λ b. IsValid b.inside × AreTriplesOf b.inside b.triples
        × ArePartsBefore b.inside b.triples.owners (length b.triples.owners) b.parts
        × ShareLooksBefore b.inside (length b.inside.rules) b.earliest
        × AreWaitsBefore b.inside b.inside.width b.waits };
}

impl SortedBook {
    /// The book over this kit. Where the kit has more entries than `MAX_ENTRIES`, it is refused with their
    /// number.
    pub fn build(alloc: Global, kit: Kit) -> Result<SortedBook, BuildFault>
        requires { IsValid kit }
        ensures book { IfOk result (λ book. book ≡ kit) }
        ensures too_wide { (count : ℕ) → IsErrOf result (BuildFault.TooWide count)
            ↔ ((count ≡ entries kit) × (MAX_ENTRIES < count)) }
    {
        let entries = kit.entries();
        if entries > MAX_ENTRIES {
            return Err(BuildFault::TooWide(entries));
        }
        match SortedBook::index(alloc, kit) {
            Ok(book) => Ok(book),
            Err(_) => Err(BuildFault::NoMemory),
        }
    }

    fn index(alloc: Global, kit: Kit) -> Result<SortedBook, NoMemory>
        requires { IsValid kit }
        ensures { IfOk result (λ book. book ≡ kit) }
    {
        let triples = Triples::of(alloc, &kit)?;
        let parts = sorted_parts(alloc, &kit, triples.owners())?;
        let earliest = earliest_of(alloc, &kit)?;
        let waits = waits_of(alloc, &kit)?;
        Ok(SortedBook {
            inside: kit,
            triples,
            parts,
            earliest,
            waits,
        })
    }

    /// The entries of a rule, counted from 0: for each key that usable rows of its master have the least row, and the
    /// least that gives another text, in the order of the keys.
    pub fn entries(&self, rule: u16) -> &[Hit]
        requires { rule < length self.now.rules }
        ensures { AreEntriesOf self.now (rule_at self.now rule) result.now }
    {
        self.part(rule).entries.as_slice()
    }

    /// The part of a rule's triple.
    fn part(&self, rule: u16) -> &Part
        requires { rule < length self.now.rules }
        ensures { IsPartOf self.now (rule_at self.now rule) result.now }
    {
        &self.parts.as_slice()[self.triples.place(rule)]
    }
}

/// The parts of the triples of these rules.
fn sorted_parts(alloc: Global, kit: &Kit, owners: &[u16]) -> Result<List<Part>, NoMemory>
    requires valid { IsValid kit.now }
    requires owners { All (λ rule. rule < length kit.now.rules) owners.now }
    ensures { IfOk result (ArePartsBefore kit.now owners.now (length owners.now)) }
{
    let mut parts = List::new(alloc);
    'owners: for owner in owners {
        parts.push(Part::of(alloc, kit, kit.rule(*owner))?)?;
    }
    Ok(parts)
}

impl<L> Book<L> for SortedBook {
    ghost kit = { λ b. b };

    fn inside(&self) -> &Kit {
        &self.inside
    }

    fn earliest(&self, rule: u16) -> u16 {
        self.earliest.as_slice()[usize::from(rule)]
    }

    fn first_waiting(&self, attribute: u16) -> u16 {
        match self.waits.as_slice().get(usize::from(attribute)) {
            Some(first) => *first,
            None => 0,
        }
    }

    fn find(&self, rule: u16, state: &State, counts: &mut Steps<L>) -> Option<Hit>
        requires rule_within { rule < length self.now.rules }
        requires fits { Fits self.now state.now }
        requires covered { All (λ key. IsCovered state.now key.0) (rule_at self.now rule).keys }
        ensures found { IsFound self.now (value_at self.now state.now) (rule_at self.now rule) result }
        ensures looks { counts.new.looks ≡ min (counts.old.looks + 1) (2 ^ 64 - 1) }
        ensures compares { counts.old.compares ≤ counts.new.compares }

        // At most as many comparisons as the number of the master's rows has binary digits.
        ensures digits { RisesByDigits (length (master_of self.now (rule_at self.now rule)).rows)
            counts.old counts.new }
    {
        counts.look();
        entry_at(&self.inside, rule, self.part(rule), state, counts)
    }

    fn agrees(&self, rule: u16, state: &State, counts: &mut Steps<L>) -> bool {
        counts.look();
        let this = self.inside.rule(rule);
        if !has_covered_keys(state, this) {
            return some_row_agrees(&self.inside, state, this);
        }
        entry_at(&self.inside, rule, self.part(rule), state, counts).is_some()
    }
}
