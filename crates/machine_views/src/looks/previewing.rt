//! Preview: the view that a Confirm of cells would give. Nothing is kept.
ghost use Rattle.std.specs.Prelude.{OnOk};
ghost use Rattle.desk_words.specs.Tables.{published_of, rows_of};
ghost use Rattle.machine_workplace.specs.Ready.{IsReady};
ghost use Rattle.machine_core.specs.Look.Preview.{preview};
ghost use Rattle.machine_core.specs.Outcomes.{Answers};
ghost use Rattle.machine_core.specs.Own.{IsOwn};
ghost use Rattle.machine_views.specs.Looking.{IsSessionFirst};

use crate::views::view_of;
use desk_base::{List, Str};
use desk_words::{Tables, View};
use machine_clerk::confirm_row;
use machine_core::{Own, Stop};
use machine_workplace::Workplace;

/// The view that a Confirm of these cells would give. Nothing is kept. The session's edition comes first on the shelf.
pub fn preview(
    tables: &Tables,
    workplace: &mut Workplace,
    own: &Own,
    number: u32,
    cells: &List<(Str, Str)>,
) -> Result<View, Stop>
    requires ready { IsReady (rows_of tables.now) workplace.old }
    requires own { IsOwn (rows_of tables.now) own.now }
    ensures view { Answers result (preview (published_of (rows_of tables.now)) own.now number cells.now) }
    ensures first { OnOk result (IsSessionFirst own.now.sessions number workplace.new.shelf) }
    ensures ready { IsReady (rows_of tables.now) workplace.new }
{
    let session = confirm_row(tables, workplace, own, number, cells.as_slice())?;
    Ok(view_of(tables, workplace, number, &session)?)
}
