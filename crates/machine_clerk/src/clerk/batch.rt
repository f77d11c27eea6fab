//! Batch: a session for each row of a sheet, as Enter would make it. A column `zip*` is the attribute `zip`, confirmed
//! in each row whose cell there is not blank; a column without the star is typed only.
ghost use Rattle.std.specs.Prelude.{◌≡◌, ◌==◌, ◌<◌, ◌≤◌, ◌+◌, ◌^◌, All, IfOk, [], filter, length, map, slice_index_or};
ghost use Rattle.std.specs.Prelude.{zip};
ghost use Rattle.std.specs.List.{list_any};
ghost use Rattle.desk_base.specs.declared.limits.TheConstants.{MAX_ATTRIBUTES};
ghost use Rattle.desk_words.specs.Tables.{published_of, rows_of};
ghost use Rattle.desk_valid.specs.Tallies.{typed_bytes};
ghost use Rattle.machine_workplace.specs.Ready.{IsReady};
ghost use Rattle.machine_core.specs.Checked.{each_following};
ghost use Rattle.machine_core.specs.Clerk.Batch.{another_column, batch_of, batch_rows, enter_batch, is_confirmed};
ghost use Rattle.machine_core.specs.Clerk.Batch.{is_starred, placed, row_session, word_of};
ghost use Rattle.machine_core.specs.Outcomes.{Finds};
ghost use Rattle.machine_core.specs.Own.{IsOwn};
ghost use Rattle.machine_clerk.specs.Headings.{IsHeading};

use crate::clerk::bytes::{bytes_in, within_bytes};
use crate::clerk::enter::new_session;
use crate::clerk::opening::open_edition;
use desk_base::{Grid, List, NoMemory, Str, Text};
use desk_words::{Act, BatchRow, Refusal, SessionRow, Tables, Which};
use machine_core::{Column, Deed, Own, Stop, attribute_of, read_master, within};
use machine_workplace::Workplace;
use std::alloc::Global;

/// What the rows of a batch stand under: the place of the edition, counted from 0, its number of attributes, and the
/// columns.
#[derive(Clone, Copy)]
struct Heading<'c> {
    edition: u32,
    width: u16,
    columns: &'c [Column],
}

/// Batch: a session for each row of a sheet.
pub fn batch_deed(
    tables: &Tables,
    workplace: &mut Workplace,
    own: &Own,
    edition: &Str,
    body: &[u8],
) -> Result<Deed, Stop>
    requires ready { IsReady (rows_of tables.now) workplace.old }
    requires own { IsOwn (rows_of tables.now) own.now }
    ensures finds { Finds result (enter_batch (published_of (rows_of tables.now)) own.now edition.now body.now) }
    ensures ready { IsReady (rows_of tables.now) workplace.new }
{
    let place = open_edition(tables, workplace, edition)?;
    let attributes = workplace.attributes(place);
    let sheet = read_master(workplace.alloc, body)?;
    let columns = columns_of(workplace.alloc, attributes, sheet.columns.as_slice())?;
    let heading = Heading {
        edition: place,
        width: attributes.len() as u16,
        columns: columns.as_slice(),
    };
    batch_rows(workplace.alloc, own, &heading, &sheet.grid)
}

/// The columns of attributes of which none stands twice, in their order.
fn columns_of(alloc: Global, attributes: &[Text], words: &[Text]) -> Result<List<Column>, Stop>
    requires { length attributes.now < 65536 }
    ensures finds { Finds result (each_following [] (another_column attributes.now) words.now) }
    ensures within { IfOk result (All (λ column. column.attribute < length attributes.now)) }
    ensures each { IfOk result (λ columns. length columns ≡ length words.now) }
{
    let mut columns = List::new(alloc);
    'words: for word in words {
        let column = another_column(alloc, attributes, columns.as_slice(), word.as_str())?;
        columns.push(column)?;
    }
    Ok(columns)
}

/// The column of an attribute that none before it has.
fn another_column(
    alloc: Global,
    attributes: &[Text],
    before: &[Column],
    column: &str,
) -> Result<Column, Stop>
    requires { length attributes.now < 65536 }
    ensures finds { Finds result (another_column attributes.now before.now column.now) }
    ensures within { IfOk result (λ made. made.attribute < length attributes.now) }
{
    let word = word_of(alloc, column)?;
    let attribute = attribute_of(attributes, &word)? as u16;
    if has_attribute(before, attribute) {
        return Err(Stop::Refused(Refusal::Twice(word)));
    }
    Ok(Column {
        attribute,
        confirms: is_starred(column),
    })
}

fn has_attribute(columns: &[Column], attribute: u16) -> bool
    ensures { result ≡ list_any (λ earlier. earlier.attribute == attribute) columns.now }
{
    columns.iter().any(|earlier| earlier.attribute == attribute)
}

/// The word of a column's attribute: one star at most is taken off.
fn word_of(alloc: Global, column: &str) -> Result<Str, NoMemory>
    ensures { IfOk result (λ word. word ≡ word_of column.now) }
{
    match column.strip_suffix('*') {
        Some(word) => Str::new(alloc, word),
        None => Str::new(alloc, column),
    }
}

fn is_starred(column: &str) -> bool
    ensures { result ≡ is_starred column.now }
{
    column.ends_with('*')
}

/// The deed of these rows, of which no more come than may stand.
fn batch_rows(alloc: Global, own: &Own, heading: &Heading, grid: &Grid) -> Result<Deed, Stop>
    requires sessions { length own.now.sessions < 2 ^ 31 }
    requires batches { length own.now.batches < 2 ^ 31 }
    requires heading { IsHeading heading.now.width grid.now.columns heading.now.columns.now }
    ensures { Finds result
        (batch_rows own.now heading.now.edition heading.now.width heading.now.columns.now grid.now.rows) }
{
    let count = grid.rows();
    within(Which::BatchRows, u64::from(count))?;
    within(Which::ActiveSessions, own.active() + u64::from(count))?;
    within(
        Which::Sessions,
        own.sessions().len() as u64 + u64::from(count),
    )?;
    within(Which::Batches, own.batches().len() as u64 + 1)?;
    batch_of(alloc, own, heading, grid)
}

/// The deed of these rows, of whose texts no more bytes come than may stand.
fn batch_of(alloc: Global, own: &Own, heading: &Heading, grid: &Grid) -> Result<Deed, Stop>
    requires sessions { length own.now.sessions < 2 ^ 31 }
    requires batches { length own.now.batches < 2 ^ 31 }
    requires heading { IsHeading heading.now.width grid.now.columns heading.now.columns.now }
    requires few { length grid.now.rows ≤ 20000 }
    ensures { Finds result (batch_of own.now heading.now.edition (length grid.now.rows)
        (map (row_session heading.now.edition heading.now.width (length own.now.batches + 1) heading.now.columns.now)
        grid.now.rows)) }
{
    let first = own.sessions().len() as u32;
    let target = own.batches().len() as u32;
    let sessions = row_sessions(alloc, heading, target + 1, grid, first)?;
    within_bytes(own, typed_bytes(sessions.as_slice()))?;
    Ok(Deed {
        sessions,
        record_row: None,
        batch: Some(BatchRow {
            edition: heading.edition,
            first: first + 1,
            count: grid.rows(),
        }),
        act: Act::Batched,
        target,
    })
}

/// The session of each row, after so many others, each with its place.
fn row_sessions(
    alloc: Global,
    heading: &Heading,
    batch: u32,
    grid: &Grid,
    first: u32,
) -> Result<List<(u32, SessionRow)>, NoMemory>
    requires first { first < 2 ^ 31 }
    requires heading { IsHeading heading.now.width grid.now.columns heading.now.columns.now }
    ensures sessions { IfOk result (λ sessions. sessions ≡ placed first
        (map (row_session heading.now.edition heading.now.width batch heading.now.columns.now) grid.now.rows)) }
{
    let mut sessions = List::new(alloc);
    'rows: for row in 0..grid.rows() {
        let session = row_session(alloc, heading, batch, grid, row)?;
        sessions.push((first + row, session))?;
    }
    Ok(sessions)
}

/// The session of a row.
fn row_session(
    alloc: Global,
    heading: &Heading,
    batch: u32,
    grid: &Grid,
    row: u32,
) -> Result<SessionRow, NoMemory>
    requires row { row < length grid.now.rows }
    requires full { All (λ row. length row ≡ grid.now.columns) grid.now.rows }
    requires heading { IsHeading heading.now.width grid.now.columns heading.now.columns.now }
    ensures { IfOk result (λ session. session ≡ row_session heading.now.edition heading.now.width batch
        heading.now.columns.now (slice_index_or grid.now.rows row [])) }
{
    let cells = cells_of(alloc, heading.columns, grid, row)?;
    let confirmed = confirmed_of(alloc, heading.columns, grid, row)?;
    new_session(
        alloc,
        heading.edition,
        heading.width,
        cells,
        confirmed.as_slice(),
        batch,
    )
}

/// The texts of a row, each with its attribute.
fn cells_of(
    alloc: Global,
    columns: &[Column],
    grid: &Grid,
    row: u32,
) -> Result<List<(usize, Text)>, NoMemory>
    requires row { row < length grid.now.rows }
    requires full { All (λ row. length row ≡ grid.now.columns) grid.now.rows }
    requires columns { length columns.now ≡ grid.now.columns }
    ensures { IfOk result (λ cells. cells ≡ map (λ cell. (cell.0.attribute, cell.1))
        (zip columns.now (slice_index_or grid.now.rows row []))) }
{
    let mut cells = List::new(alloc);
    'columns: for place in 0..grid.columns() {
        let attribute = columns[usize::from(place)].attribute;
        let text = Text::of(alloc, grid.cell(row, place))?;
        cells.push((usize::from(attribute), text))?;
    }
    Ok(cells)
}

/// The attributes of a row that are confirmed.
fn confirmed_of(
    alloc: Global,
    columns: &[Column],
    grid: &Grid,
    row: u32,
) -> Result<List<u16>, NoMemory>
    requires row { row < length grid.now.rows }
    requires full { All (λ row. length row ≡ grid.now.columns) grid.now.rows }
    requires columns { length columns.now ≡ grid.now.columns }
    ensures { IfOk result (λ confirmed. confirmed ≡ map (λ cell. cell.0.attribute)
        (filter is_confirmed (zip columns.now (slice_index_or grid.now.rows row [])))) }
{
    let mut confirmed = List::new(alloc);
    'columns: for place in 0..grid.columns() {
        let column = columns[usize::from(place)];
        if is_confirmed(&column, grid.cell(row, place)) {
            confirmed.push(column.attribute)?;
        }
    }
    Ok(confirmed)
}

/// The cell is to be confirmed: its column has a star, and it is not blank.
fn is_confirmed(column: &Column, text: &str) -> bool
    ensures { result ≡ is_confirmed (column.now, text.now) }
{
    column.confirms && !text.is_empty()
}

/// The bytes that are typed in sessions.
fn typed_bytes(sessions: &[(u32, SessionRow)]) -> u64
    requires few { length sessions.now ≤ 20000 }
    requires narrow { All (λ put. length put.1.typed ≤ MAX_ATTRIBUTES) sessions.now }
    ensures { result ≡ typed_bytes (map (λ put. put.1) sessions.now) }
{
    let mut bytes = 0;
    'sessions: for put in sessions {
        bytes += bytes_in(put.1.typed.as_slice());
    }
    bytes
}
