//! AddDerived: a region of the rows that a master gives.
ghost use Rattle.std.specs.Prelude.{◌≡◌, IfOk};
ghost use Rattle.desk_words.specs.Tables.{published_of, rows_of};
ghost use Rattle.desk_valid.specs.Valid.{AreValid};
ghost use Rattle.machine_core.specs.Outcomes.{Answers};
ghost use Rattle.machine_core.specs.Shelves.{AreHeld, IsFullRoom};
ghost use Rattle.machine_core.specs.Steward.AddDerived.{derived_region, region_from};

use crate::derivation::Derivation;
use crate::derived::{derivation_of, derived_rows};
use crate::limits::within;
use crate::steward::add_region::region_count;
use crate::stop::Stop;
use desk_base::{List, MAX_REGION_ROWS, NoMemory, Str, Text};
use desk_words::{RegionRow, Tables, Which};
use fix_engine::Work;
use fix_model::Region;
use master_index::Shelf;
use std::alloc::Global;

/// The row of a region of the edition of this name and version: the rows that its master gives for the pairs, from a
/// place on, counted from 1, and no more of them than a region has. The edition comes first on the shelf.
pub fn derived_region(
    alloc: Global,
    tables: &Tables,
    shelf: &mut Shelf,
    work: &mut Work,
    edition: &Str,
    version: u32,
    master: &Str,
    pairs: &[(Str, Str)],
    from: u32,
) -> Result<RegionRow, Stop>
    requires valid { AreValid (rows_of tables.now) }
    requires held { AreHeld (published_of (rows_of tables.now)) shelf.old }
    requires room { IsFullRoom work.old }
    ensures answers { Answers result (derived_region (published_of (rows_of tables.now)) edition.now version master.now
        pairs.now from) }
    ensures held { AreHeld (published_of (rows_of tables.now)) shelf.new }
    ensures room { IsFullRoom work.new }
{
    let derivation = derivation_of(alloc, tables, edition, version, master, pairs)?;
    let regions = region_count(tables.regions.as_slice(), derivation.edition);
    within(Which::Regions, regions + 1)?;
    let rows = derived_rows(alloc, tables, shelf, work, &derivation)?;
    Ok(region_from(alloc, derivation, from, rows)?)
}

/// The region of derived rows from a place on, counted from 1, no more of them than a region has.
fn region_from(
    alloc: Global,
    derivation: Derivation,
    from: u32,
    rows: List<(u32, List<Text>)>,
) -> Result<RegionRow, NoMemory>
    ensures { IfOk result (λ row. row ≡ region_from derivation from rows) }
{
    let before = from.saturating_sub(1) as usize;
    let mut texts = List::new(alloc);
    'rows: for row in rows
        .into_vec()
        .into_iter()
        .skip(before)
        .take(MAX_REGION_ROWS)
    {
        texts.push(row.1)?;
    }
    Ok(RegionRow {
        edition: derivation.edition,
        region: Region {
            attrs: derivation.attributes,
            rows: texts,
        },
    })
}
