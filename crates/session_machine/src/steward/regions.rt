//! A new region of a version of an edition, with its reply.
ghost use Rattle.desk_words.specs.Tables.{published_of, rows_of};
ghost use Rattle.machine_workplace.specs.Ready.{IsReady};
ghost use Rattle.machine_core.specs.Outcomes.{Answers, Finds};
ghost use Rattle.machine_core.specs.Steward.AddRegion.{region_row};
ghost use Rattle.session_machine.specs.Made.{AddsRegion, made_by, row_by};

use desk_base::{List, Str};
use desk_words::{Act, Change, Kind, Made, RegionRow, StewardWork, Tables};
use machine_core::{Making, Stop, derived_region, hold, named, region_on, shelved};
use machine_views::region_made;
use machine_workplace::Workplace;

/// A new region: of rows that are written out, or of those that a master gives.
pub fn add_region(
    tables: &Tables,
    workplace: &mut Workplace,
    work: &StewardWork,
) -> Result<(Made, Making), Stop>
    requires ready { IsReady (rows_of tables.now) workplace.old }
    requires adds { AddsRegion work.now }
    ensures answers { Answers result (made_by (rows_of tables.now) work.now) }
    ensures ready { IsReady (rows_of tables.now) workplace.new }
{
    let row = row_by(tables, workplace, work)?;
    let target = tables.regions.len() as u32;
    let made = region_made(tables, workplace, target, &row)?;
    let change = Change::Region(row);
    Ok((
        made,
        Making {
            change,
            act: Act::Region,
            target,
        },
    ))
}

/// The row of the region.
fn row_by(tables: &Tables, workplace: &mut Workplace, work: &StewardWork) -> Result<RegionRow, Stop>
    requires ready { IsReady (rows_of tables.now) workplace.old }
    requires adds { AddsRegion work.now }
    ensures answers { Answers result (row_by (published_of (rows_of tables.now)) work.now) }
    ensures ready { IsReady (rows_of tables.now) workplace.new }
{
    match work {
        StewardWork::AddRegion {
            edition,
            version,
            attrs,
            rows,
        } => region_row(tables, workplace, edition, *version, attrs, rows),
        StewardWork::AddDerived {
            edition,
            version,
            master,
            pairs,
            from,
        } => {
            let (version, pairs, from) = (*version, pairs.as_slice(), *from);
            derived_region(
                workplace.alloc,
                tables,
                &mut workplace.shelf,
                &mut workplace.room,
                edition,
                version,
                master,
                pairs,
                from,
            )
        }
        // No other write adds a region.
        _ => unreachable!(),
    }
}

/// The row of a region of rows that are written out, on the edition of this name and version.
fn region_row(
    tables: &Tables,
    workplace: &mut Workplace,
    edition: &Str,
    version: u32,
    words: &List<Str>,
    texts: &List<List<Str>>,
) -> Result<RegionRow, Stop>
    requires ready { IsReady (rows_of tables.now) workplace.old }
    ensures finds { Finds result (region_row (published_of (rows_of tables.now)) edition.now version words.now
        texts.now) }
    ensures ready { IsReady (rows_of tables.now) workplace.new }
{
    let place = named(tables.editions.as_slice(), edition, version, Kind::Edition)?;
    workplace.hold(tables, place)?;
    let attributes = shelved(&workplace.shelf, place).names.attributes.as_slice();
    region_on(
        workplace.alloc,
        tables.regions.as_slice(),
        place,
        attributes,
        words.as_slice(),
        texts.as_slice(),
    )
}
