//! View: a session as it stands.
ghost use Rattle.std.specs.Prelude.{OnOk};
ghost use Rattle.desk_words.specs.Tables.{published_of, rows_of};
ghost use Rattle.machine_workplace.specs.Ready.{IsReady};
ghost use Rattle.machine_core.specs.Look.View.{view_at};
ghost use Rattle.machine_core.specs.Outcomes.{Answers};
ghost use Rattle.machine_core.specs.Own.{IsOwn};
ghost use Rattle.machine_views.specs.Looking.{IsSessionFirst};

use crate::views::view_of;
use desk_words::{Tables, View};
use machine_core::{Own, Stop, session_of};
use machine_workplace::Workplace;

/// The session of this number, counted from 1, as it stands. Its edition comes first on the shelf.
pub fn view_at(
    tables: &Tables,
    workplace: &mut Workplace,
    own: &Own,
    number: u32,
) -> Result<View, Stop>
    requires ready { IsReady (rows_of tables.now) workplace.old }
    requires own { IsOwn (rows_of tables.now) own.now }
    ensures view { Answers result (view_at (published_of (rows_of tables.now)) own.now number) }
    ensures first { OnOk result (IsSessionFirst own.now.sessions number workplace.new.shelf) }
    ensures ready { IsReady (rows_of tables.now) workplace.new }
{
    let session = session_of(own.sessions(), number)?;
    Ok(view_of(tables, workplace, number, session)?)
}
