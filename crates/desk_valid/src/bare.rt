//! Masters without their rows, which bind as the masters do.
ghost use Rattle.std.specs.Prelude.{◌≡◌, length, IfOk, OnOk};
ghost use Rattle.fix_model.specs.Valid.{IsValid};
ghost use Rattle.desk_valid.specs.Bare.{bare_at, entries_over, with_master};
ghost use Rattle.desk_valid.specs.ReadTables.{AreRead, published_in};

use crate::read_tables::ReadTables;
use crate::reading::Header;
use desk_base::{Duplicate, List, NoMemory, Text};
use fix_model::Kit;
use master_rows::Master;
use std::alloc::Global;

/// Masters without their rows, under their names.
#[derive(Drop)]
pub(crate) struct Bare {
    pub(crate) masters: List<(Text, Master)>,
    /// How many rows each has.
    pub(crate) counts: List<u32>,
}

impl Bare {
    /// Adds a master after the others.
    fn push(&mut self, name: &Text, header: &Header) -> Result<(), NoMemory>
        ensures { OnOk result (self.new ≡ with_master self.old name.now header.now) }
    {
        let master = header.bare.copy()?;
        self.masters.push((name.copy()?, master))?;
        self.counts.push(header.rows)?;
        Ok(())
    }
}

/// The masters at these places, where each reads.
pub(crate) fn bare_at(
    alloc: Global,
    read: &ReadTables<'_>,
    places: &[u32],
) -> Result<Option<Bare>, NoMemory>
    requires { AreRead read.now }
    ensures { IfOk result (λ found. found ≡ bare_at (published_in read.now) places.now) }
{
    let mut bare = Bare {
        masters: List::new(alloc),
        counts: List::new(alloc),
    };
    'places: for place in places {
        let Some(row) = read.tables.masters.as_slice().get(*place as usize) else {
            return Ok(None);
        };
        let Some(header) = read.header_at(*place as usize) else {
            return Ok(None);
        };
        bare.push(&row.name, header)?;
    }
    Ok(Some(bare))
}

/// How many entries an index over the kit holds, where its masters have so many rows.
pub(crate) fn entries_over(kit: &Kit, counts: &[u32]) -> u64
    requires valid { IsValid kit.now }
    requires counts { length counts.now ≡ length kit.now.masters }
    ensures { result ≡ entries_over counts.now kit.now }
{
    let mut entries = 0;
    'places: for place in 0..kit.rules.len() as u16 {
        if kit.earlier_twin(place).is_none() {
            entries += u64::from(counts[usize::from(kit.rule(place).master)]);
        }
    }
    entries
}
