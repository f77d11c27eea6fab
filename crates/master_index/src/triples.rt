//! Which rules of a kit share one part of an index: those with the same triple of master, key columns with
//! their flags, and `from`.
ghost use Rattle.std.specs.Prelude.{◌≡◌, ◌+◌, ◌<◌, length, slice_index, IfOk, OnOk};
ghost use Rattle.fix_model.specs.Valid.{IsValid};
ghost use Rattle.master_index.specs.Triples.{AreTriplesBefore, AreTriplesOf};

use desk_base::{List, NoMemory};
use fix_model::Kit;
use std::alloc::Global;

/// The rules of a kit whose triple no earlier rule has, and for each rule the place of the one among them
/// whose triple it has, all counted from 0.
#[derive(Debug, Drop)]
pub(crate) struct Triples {
    owners: List<u16>,
    places: List<usize>,
}

impl Triples {
    /// The triples of a kit.
    pub(crate) fn of(alloc: Global, kit: &Kit) -> Result<Triples, NoMemory>
        requires { IsValid kit.now }
        ensures { IfOk result (AreTriplesOf kit.now) }
    {
        let mut triples = Triples {
            owners: List::new(alloc),
            places: List::new(alloc),
        };
        'rules: for rule in 0..kit.rules.len() as u16 {
            triples.add(kit, rule)?;
        }
        Ok(triples)
    }

    /// Adds the next rule: it gets the place of an earlier rule with the same triple, else one of its own.
    fn add(&mut self, kit: &Kit, rule: u16) -> Result<(), NoMemory>
        requires valid { IsValid kit.now }
        requires rule_within { rule < length kit.now.rules }
        requires before { AreTriplesBefore kit.now rule self.old }
        ensures { OnOk result (AreTriplesBefore kit.now (rule + 1) self.new) }
    {
        let place = match kit.earlier_twin(rule) {
            Some(earlier) => self.places.as_slice()[usize::from(earlier)],
            None => {
                self.owners.push(rule)?;
                self.owners.len() - 1
            }
        };
        self.places.push(place)
    }

    /// The rules whose triple no earlier rule has, ascending.
    pub(crate) fn owners(&self) -> &[u16]
        ensures { result.now ≡ self.now.owners }
    {
        self.owners.as_slice()
    }

    /// The place among the owners of the one whose triple a rule has.
    pub(crate) fn place(&self, rule: u16) -> usize
        requires { rule < length self.now.places }
        ensures { result ≡ slice_index self.now.places rule }
    {
        self.places.as_slice()[usize::from(rule)]
    }
}
