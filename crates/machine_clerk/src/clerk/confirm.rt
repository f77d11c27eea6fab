//! Confirm: the cells are typed, and confirmed.
ghost use Rattle.std.specs.Prelude.{◌≡◌, ◌<◌, ◌≤◌, All, OnOk, IfOk, length, map};
ghost use Rattle.desk_base.specs.declared.limits.TheConstants.{MAX_ATTRIBUTES};
ghost use Rattle.desk_words.specs.Tables.{published_of, rows_of};
ghost use Rattle.machine_workplace.specs.Ready.{IsReady};
ghost use Rattle.machine_core.specs.Clerk.Confirm.{cells_confirmed, confirm, confirm_row, confirmed_at, with_cells};
ghost use Rattle.machine_core.specs.Outcomes.{Finds};
ghost use Rattle.machine_core.specs.Own.{IsOwn};

use crate::clerk::bytes::within_replaced;
use crate::clerk::enter::type_over;
use crate::clerk::opening::{open_session, with_texts};
use desk_base::{List, NoMemory, Shared, Str, Text};
use desk_words::{Act, SessionRow, Tables};
use machine_core::{Deed, Own, Stop, typed_cells};
use machine_workplace::Workplace;
use std::alloc::Global;

/// Confirm: the cells are typed, and confirmed.
pub fn confirm_deed(
    tables: &Tables,
    workplace: &mut Workplace,
    own: &Own,
    number: u32,
    cells: &[(Str, Str)],
) -> Result<Deed, Stop>
    requires ready { IsReady (rows_of tables.now) workplace.old }
    requires own { IsOwn (rows_of tables.now) own.now }
    ensures finds { Finds result (confirm (published_of (rows_of tables.now)) own.now number cells.now) }
    ensures ready { IsReady (rows_of tables.now) workplace.new }
{
    let session = confirm_row(tables, workplace, own, number, cells)?;
    within_replaced(own, number, &session)?;
    Ok(Deed::puts(workplace.alloc, number - 1, session, Act::Changed)?)
}

/// The session after a Confirm of these cells, which is active and within the clerk's sessions.
pub fn confirm_row(
    tables: &Tables,
    workplace: &mut Workplace,
    own: &Own,
    number: u32,
    cells: &[(Str, Str)],
) -> Result<SessionRow, Stop>
    requires ready { IsReady (rows_of tables.now) workplace.old }
    requires own { IsOwn (rows_of tables.now) own.now }
    ensures finds { Finds result (confirm_row (published_of (rows_of tables.now)) own.now number cells.now) }
    ensures counted { OnOk result (1 ≤ number) }
    ensures within { OnOk result (number ≤ length own.now.sessions) }
    ensures few { IfOk result (λ session. length session.typed ≤ MAX_ATTRIBUTES) }
    ensures ready { IsReady (rows_of tables.now) workplace.new }
{
    let session = open_session(tables, workplace, own, number)?;
    let attributes = workplace.attributes(session.edition);
    cells_confirmed(workplace.alloc, attributes, session, cells)
}

/// A session over these attributes with cells of theirs typed and confirmed.
fn cells_confirmed(
    alloc: Global,
    attributes: &[Text],
    session: &SessionRow,
    cells: &[(Str, Str)],
) -> Result<SessionRow, Stop>
    requires typed { length session.now.typed ≡ length attributes.now }
    requires confirmed { length session.now.confirmed ≡ length attributes.now }
    ensures finds { Finds result (cells_confirmed attributes.now session.now cells.now) }
    ensures whole { IfOk result (λ after. length after.typed ≡ length session.now.typed) }
{
    let texts = typed_cells(alloc, attributes, cells)?;
    Ok(with_cells(alloc, session, texts)?)
}

/// The session with these cells typed and confirmed.
fn with_cells(
    alloc: Global,
    session: &SessionRow,
    cells: List<(usize, Text)>,
) -> Result<SessionRow, NoMemory>
    requires typed { All (λ cell. cell.0 < length session.now.typed) cells }
    requires confirmed { All (λ cell. cell.0 < length session.now.confirmed) cells }
    ensures { IfOk result (λ after. after ≡ with_cells session.now cells) }
{
    let mut typed = session.typed.to_list(alloc)?;
    let mut confirmed = session.confirmed.to_list(alloc)?;
    confirm_at(&mut confirmed, cells.as_slice());
    type_over(&mut typed, cells);
    let typed = Shared::of(typed)?;
    let confirmed = Shared::of(confirmed)?;
    Ok(with_texts(session, typed, confirmed))
}

/// Sets the flags at the places of these cells.
fn confirm_at(flags: &mut List<bool>, cells: &[(usize, Text)])
    requires { All (λ cell. cell.0 < length flags.old) cells.now }
    ensures { flags.new ≡ confirmed_at flags.old (map (λ cell. cell.0) cells.now) }
{
    'cells: for cell in cells {
        flags.set(cell.0, true);
    }
}
