//! Region: a region of a version of an edition, with what the rules make of each of its rows.
ghost use Rattle.std.specs.Prelude.{◌≡◌, All, IfOk, length};
ghost use Rattle.std.specs.Option.{option_copied};
ghost use Rattle.desk_words.specs.Tables.{published_of, rows_of};
ghost use Rattle.machine_workplace.specs.Ready.{IsReady};
ghost use Rattle.fix_engine.specs.WorkSeen.{IsRoomFor, KeepsSize};
ghost use Rattle.machine_core.specs.DeskLook.Region.{region_shown, row_verdict};
ghost use Rattle.machine_core.specs.Finding.{numbered};
ghost use Rattle.machine_core.specs.Look.Suggest.{regions_of};
ghost use Rattle.machine_core.specs.Outcomes.{Answers};
ghost use Rattle.machine_views.specs.Counts.{AreVerdictsOn};

use crate::made::row_verdict;
use crate::views::named_attributes;
use desk_base::{Duplicate, List, NoMemory, Str};
use desk_words::{Kind, Refusal, RegionRow, RegionSheet, Tables};
use fix_engine::{Verdict, Work};
use fix_model::{Region, RowVerdict};
use machine_core::{Stop, hold, named, shelved};
use machine_workplace::Workplace;
use master_index::SortedBook;
use std::alloc::Global;

/// The region of this number, counted from 1, of the edition of this name and version. Its edition comes first on the
/// shelf.
pub fn region_shown(
    tables: &Tables,
    workplace: &mut Workplace,
    edition: &Str,
    version: u32,
    number: u32,
) -> Result<RegionSheet, Stop>
    requires ready { IsReady (rows_of tables.now) workplace.old }
    ensures region { Answers result (region_shown (published_of (rows_of tables.now)) edition.now version number) }
    ensures ready { IsReady (rows_of tables.now) workplace.new }
{
    let place = named(tables.editions.as_slice(), edition, version, Kind::Edition)?;
    let Some(region) = region_numbered(tables.regions.as_slice(), place, number) else {
        return Err(Stop::Refused(Refusal::NoSuch(Kind::Region)));
    };
    workplace.hold(tables, place)?;
    let shelved = shelved(&workplace.shelf, place);
    let verdicts = verdicts_on(workplace.alloc, &mut workplace.room, &shelved.book, region)?;
    let words = shelved.names.attributes.as_slice();
    Ok(RegionSheet {
        edition: tables.editions.as_slice()[place as usize].name.copy()?,
        version,
        region: number,
        attributes: named_attributes(workplace.alloc, words, region.attrs.as_slice())?,
        rows: region.rows.copy()?,
        verdicts,
    })
}

/// The region of this number, counted from 1, among those of an edition.
fn region_numbered(rows: &[RegionRow], edition: u32, number: u32) -> Option<&Region>
    ensures { option_copied result ≡ numbered (regions_of rows.now edition) number }
{
    if number == 0 {
        return None;
    }
    let mut earlier = number - 1;
    'rows: for row in rows {
        if row.edition == edition {
            if earlier == 0 {
                return Some(&row.region);
            }
            earlier -= 1;
        }
    }
    None
}

/// The verdicts on a region's rows, in their order.
fn verdicts_on(
    alloc: Global,
    work: &mut Work,
    book: &SortedBook,
    region: &Region,
) -> Result<List<RowVerdict>, NoMemory>
    requires room { IsRoomFor work.old book.now }
    requires whole { All (λ texts. length texts ≡ length region.now.attrs) region.now.rows }
    ensures verdicts { IfOk result (AreVerdictsOn book.now region.now.attrs region.now.rows) }
    ensures size { KeepsSize work.old work.new }
{
    let mut verdicts = List::new(alloc);
    'rows: for texts in region.rows.as_slice() {
        let verdict = row_verdict(alloc, work, book, region, texts)?;
        verdicts.push(named_verdict(verdict))?;
    }
    Ok(verdicts)
}

/// The verdict on a row by its name.
fn named_verdict(verdict: Verdict) -> RowVerdict
    ensures { result ≡ row_verdict verdict }
{
    match verdict {
        Verdict::Fix { certain: true, .. } => RowVerdict::Certain,
        Verdict::Fix { certain: false, .. } => RowVerdict::Partial,
        Verdict::Conflict => RowVerdict::Conflict,
    }
}
