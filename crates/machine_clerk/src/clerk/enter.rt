//! Enter: a session on the newest version of an edition. Cells that are not given are blank.
ghost use Rattle.std.specs.Prelude.{◌≡◌, ◌<◌, ◌≤◌, ◌^◌, All, IfOk, [], length, replicate};
ghost use Rattle.desk_base.specs.declared.limits.TheConstants.{MAX_ATTRIBUTES};
ghost use Rattle.desk_words.specs.Tables.{published_of, rows_of};
ghost use Rattle.machine_workplace.specs.Ready.{IsReady};
ghost use Rattle.machine_core.specs.Clerk.Enter.{enter, enter_row, entered, new_session, typed_over};
ghost use Rattle.machine_core.specs.Outcomes.{Finds};
ghost use Rattle.machine_core.specs.Own.{IsOwn};

use crate::clerk::bytes::{bytes_in, within_bytes};
use crate::clerk::opening::open_edition;
use desk_base::{List, NoMemory, Shared, Str, Text, flags_of};
use desk_words::{Act, SessionRow, Stage, Tables, Which};
use machine_core::{Deed, Own, Stop, attributes_of, typed_cells, within};
use machine_workplace::Workplace;
use std::alloc::Global;

/// Enter: a session on the newest version of an edition. Cells that are not given are blank.
pub fn enter_deed(
    tables: &Tables,
    workplace: &mut Workplace,
    own: &Own,
    edition: &Str,
    cells: &List<(Str, Str)>,
    confirmed: &List<Str>,
) -> Result<Deed, Stop>
    requires ready { IsReady (rows_of tables.now) workplace.old }
    requires own { IsOwn (rows_of tables.now) own.now }
    ensures finds { Finds result
        (enter (published_of (rows_of tables.now)) own.now edition.now cells.now confirmed.now) }
    ensures ready { IsReady (rows_of tables.now) workplace.new }
{
    let (cells, confirmed) = (cells.as_slice(), confirmed.as_slice());
    let session = enter_row(tables, workplace, own, edition, cells, confirmed)?;
    let place = own.sessions().len() as u32;
    Ok(Deed::puts(workplace.alloc, place, session, Act::Opened)?)
}

/// The new session.
fn enter_row(
    tables: &Tables,
    workplace: &mut Workplace,
    own: &Own,
    edition: &Str,
    cells: &[(Str, Str)],
    confirmed: &[Str],
) -> Result<SessionRow, Stop>
    requires ready { IsReady (rows_of tables.now) workplace.old }
    requires own { IsOwn (rows_of tables.now) own.now }
    ensures finds { Finds result
        (enter_row (published_of (rows_of tables.now)) own.now edition.now cells.now confirmed.now) }
    ensures ready { IsReady (rows_of tables.now) workplace.new }
{
    let place = open_edition(tables, workplace, edition)?;
    let attributes = workplace.attributes(place);
    entered(workplace.alloc, own, place, attributes, cells, confirmed)
}

/// The new session on an edition of these attributes.
fn entered(
    alloc: Global,
    own: &Own,
    edition: u32,
    attributes: &[Text],
    cells: &[(Str, Str)],
    confirmed: &[Str],
) -> Result<SessionRow, Stop>
    requires sessions { length own.now.sessions < 2 ^ 31 }
    requires attributes { length attributes.now ≤ MAX_ATTRIBUTES }
    ensures { Finds result (entered own.now edition attributes.now cells.now confirmed.now) }
{
    let texts = typed_cells(alloc, attributes, cells)?;
    let places = attributes_of(alloc, attributes, confirmed)?;
    within(Which::ActiveSessions, own.active() + 1)?;
    within(Which::Sessions, own.sessions().len() as u64 + 1)?;
    let width = attributes.len() as u16;
    let session = new_session(alloc, edition, width, texts, places.as_slice(), 0)?;
    within_bytes(own, bytes_in(session.typed.as_slice()))?;
    Ok(session)
}

/// A session on the edition at a place, counted from 0, with these cells typed and these attributes confirmed.
pub(crate) fn new_session(
    alloc: Global,
    edition: u32,
    width: u16,
    cells: List<(usize, Text)>,
    confirmed: &[u16],
    batch: u32,
) -> Result<SessionRow, NoMemory>
    requires { All (λ cell. cell.0 < width) cells }
    ensures { IfOk result (λ session. session ≡ new_session edition width cells confirmed.now batch) }
{
    let mut typed = blanks(alloc, width)?;
    type_over(&mut typed, cells);
    let confirmed = flags_of(alloc, width, confirmed)?;
    Ok(SessionRow {
        edition,
        typed: Shared::of(typed)?,
        confirmed: Shared::of(confirmed)?,
        stage: Stage::Active,
        batch,
    })
}

/// So many blanks.
fn blanks(alloc: Global, count: u16) -> Result<List<Text>, NoMemory>
    ensures { IfOk result (λ texts. texts ≡ replicate count []) }
{
    let mut texts = List::with_capacity(alloc, usize::from(count))?;
    'texts: for _ in 0..count {
        texts.push(Text::of(alloc, "")?)?;
    }
    Ok(texts)
}

/// Types texts over those at their places, the first one first.
pub(crate) fn type_over(texts: &mut List<Text>, cells: List<(usize, Text)>)
    requires { All (λ cell. cell.0 < length texts.old) cells }
    ensures { texts.new ≡ typed_over texts.old cells }
{
    'cells: for (place, text) in cells.into_vec() {
        texts.set(place, text);
    }
}
