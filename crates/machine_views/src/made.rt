//! The replies to the steward's writes: what was made, over the tables as they stand.
ghost use Rattle.std.specs.Prelude.{◌≡◌, ◌≢◌, ◌≤◌, All, IfOk, length};
ghost use Rattle.desk_base.specs.declared.limits.TheConstants.{MAX_REGION_ROWS};
ghost use Rattle.desk_words.specs.Tables.{published_of, rows_of};
ghost use Rattle.desk_valid.specs.Rows.Clerk.{HasTarget, IsStewardsAct};
ghost use Rattle.desk_valid.specs.Rows.Region.{IsRegionRow};
ghost use Rattle.machine_workplace.specs.Ready.{IsReady};
ghost use Rattle.fix_engine.specs.Verdicts.{IsAnswer};
ghost use Rattle.fix_engine.specs.WorkSeen.{IsRoomFor, KeepsSize};
ghost use Rattle.fix_model.specs.Regions.{row_state};
ghost use Rattle.machine_core.specs.Checked.{Gives};
ghost use Rattle.machine_core.specs.Kept.{kept_made, region_made};
ghost use Rattle.machine_views.specs.Counts.{AreAtMost, AreRowVerdicts};

use crate::counting::Verdicts;
use desk_base::{Duplicate, List, NoMemory, Steps, Text};
use desk_words::{Act, EditionRow, Made, RegionRow, RulebookRow, Tables, TextRow};
use fix_engine::{Verdict, Work, decide};
use fix_model::{Book, Region, row_state};
use machine_core::{hold, region_count, shelved};
use machine_workplace::Workplace;
use master_index::SortedBook;
use std::alloc::Global;

/// The reply of the steward's act, whose target is a place counted from 0.
pub fn kept_made(
    tables: &Tables,
    workplace: &mut Workplace,
    act: Act,
    target: u32,
) -> Result<Made, NoMemory>
    requires ready { IsReady (rows_of tables.now) workplace.old }
    requires steward { IsStewardsAct act }
    requires started { act ≢ Act.Nothing }
    requires target { HasTarget (rows_of tables.now) 0 act target }
    ensures made { IfOk result (λ made. Gives (kept_made (rows_of tables.now) act target) (Ok made)) }
    ensures ready { IsReady (rows_of tables.now) workplace.new }
{
    let place = target as usize;
    match act {
        Act::Clerk => Ok(Made::Clerk(tables.clerks.as_slice()[place].name.copy()?)),
        Act::Schema => schema_made(&tables.schemas.as_slice()[place]),
        Act::Master => master_made(&tables.masters.as_slice()[place]),
        Act::Rulebook => rulebook_made(&tables.rulebooks.as_slice()[place]),
        Act::Edition => edition_made(&tables.editions.as_slice()[place]),
        Act::Region => {
            let row = &tables.regions.as_slice()[place];
            region_made(tables, workplace, target, row)
        }
        // The steward has no other acts.
        _ => unreachable!(),
    }
}

/// A version of a schema's name.
fn schema_made(row: &TextRow) -> Result<Made, NoMemory>
    ensures { IfOk result (λ made. made ≡ Made.Schema row.now.name row.now.version) }
{
    Ok(Made::Schema(row.name.copy()?, row.version))
}

/// A version of a master's name.
fn master_made(row: &TextRow) -> Result<Made, NoMemory>
    ensures { IfOk result (λ made. made ≡ Made.Master row.now.name row.now.version) }
{
    Ok(Made::Master(row.name.copy()?, row.version))
}

/// A version of a rulebook's name.
fn rulebook_made(row: &RulebookRow) -> Result<Made, NoMemory>
    ensures { IfOk result (λ made. made ≡ Made.Rulebook row.now.name row.now.version) }
{
    Ok(Made::Rulebook(row.name.copy()?, row.version))
}

/// A version of an edition's name.
fn edition_made(row: &EditionRow) -> Result<Made, NoMemory>
    ensures { IfOk result (λ made. made ≡ Made.Edition row.now.name row.now.version) }
{
    Ok(Made::Edition(row.name.copy()?, row.version))
}

/// A region at a place, counted from 0, with the number of its rows of each verdict. It need not stand there yet.
pub fn region_made(
    tables: &Tables,
    workplace: &mut Workplace,
    place: u32,
    row: &RegionRow,
) -> Result<Made, NoMemory>
    requires ready { IsReady (rows_of tables.now) workplace.old }
    requires place { place ≤ length tables.now.regions.items }
    requires region { IsRegionRow (published_of (rows_of tables.now)) place row.now }
    ensures made { IfOk result
        (λ made. Gives (region_made (published_of (rows_of tables.now)) place row.now) (Ok made)) }
    ensures ready { IsReady (rows_of tables.now) workplace.new }
{
    workplace.hold(tables, row.edition)?;
    let verdicts = row_verdicts(
        workplace.alloc,
        &mut workplace.room,
        &shelved(&workplace.shelf, row.edition).book,
        &row.region,
    )?;
    let earlier = region_count(&tables.regions.as_slice()[..place as usize], row.edition);
    Ok(Made::Region {
        region: earlier as u32 + 1,
        certain: verdicts.certain as u32,
        partial: verdicts.partial as u32,
        conflict: verdicts.conflict as u32,
    })
}

/// How many of a region's rows have each verdict.
fn row_verdicts(
    alloc: Global,
    work: &mut Work,
    book: &SortedBook,
    region: &Region,
) -> Result<Verdicts, NoMemory>
    requires room { IsRoomFor work.old book.now }
    requires whole { All (λ texts. length texts ≡ length region.now.attrs) region.now.rows }
    requires few { length region.now.rows ≤ MAX_REGION_ROWS }
    ensures verdicts { IfOk result (AreRowVerdicts book.now region.now.attrs region.now.rows) }
    ensures few { IfOk result (AreAtMost (length region.now.rows)) }
    ensures size { KeepsSize work.old work.new }
{
    let mut verdicts = Verdicts::none();
    'rows: for texts in region.rows.as_slice() {
        let verdict = row_verdict(alloc, work, book, region, texts)?;
        verdicts = verdicts.with(verdict);
    }
    Ok(verdicts)
}

/// The verdict on a row of a region. The runs are left in the work.
pub(crate) fn row_verdict(
    alloc: Global,
    work: &mut Work,
    book: &SortedBook,
    region: &Region,
    texts: &List<Text>,
) -> Result<Verdict, NoMemory>
    requires room { IsRoomFor work.old book.now }
    requires whole { length texts.now ≡ length region.now.attrs }
    ensures verdict { IfOk result (λ verdict. IsAnswer book.now (row_state book.now.width region.now.attrs texts.now)
        work.new.first work.new.second verdict) }
    ensures size { KeepsSize work.old work.new }
{
    let (attributes, texts) = (region.attrs.as_slice(), texts.as_slice());
    let mut state = row_state(alloc, Book::<()>::width(book), attributes, texts)?;
    Ok(decide(work, book, &mut state, &mut Steps::new(())))
}
