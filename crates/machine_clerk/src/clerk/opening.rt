//! The session that a write is about, with the book of its edition.
ghost use Rattle.std.specs.Prelude.{◌≡◌, ◌-◌, ◌≤◌, ◌<◌, OnOk, IfOk, Some, length, slice_get};
ghost use Rattle.desk_words.specs.declared.refusal.Kind.TheVariants as kind;
ghost use Rattle.desk_words.specs.declared.refusal.Refusal.TheVariants.{NoSuch};
ghost use Rattle.desk_words.specs.Tables.{published_of, rows_of};
ghost use Rattle.desk_valid.specs.Rows.Session.{IsSessionRow};
ghost use Rattle.machine_workplace.specs.Ready.{IsReady};
ghost use Rattle.machine_core.specs.Checked.{some_or};
ghost use Rattle.machine_core.specs.Finding.{newest_edition};
ghost use Rattle.machine_core.specs.Outcomes.{Finds, Lends};
ghost use Rattle.machine_core.specs.Own.{IsOwn};
ghost use Rattle.machine_core.specs.Shelves.{IsFirst};
ghost use Rattle.machine_core.specs.Tests.{active_session};

use desk_base::{Shared, Str, Text};
use desk_words::{Kind, Refusal, SessionRow, Tables};
use machine_core::{Own, Stop, active_session, hold, newest_of};
use machine_workplace::Workplace;

/// The session with this number, counted from 1, which is active; the book of its edition stands first on the shelf.
pub(crate) fn open_session<'t>(
    tables: &Tables,
    workplace: &mut Workplace,
    own: &Own<'t>,
    number: u32,
) -> Result<&'t SessionRow, Stop>
    requires ready { IsReady (rows_of tables.now) workplace.old }
    requires own { IsOwn (rows_of tables.now) own.now }
    ensures finds { Lends result (active_session own.now.sessions number) }
    ensures counted { OnOk result (1 ≤ number) }
    ensures stands { IfOk result (λ session. slice_get own.now.sessions (number - 1) ≡ Some session.now) }
    ensures good { IfOk result (λ session.
        IsSessionRow (published_of (rows_of tables.now)) own.now.batches session.now) }
    ensures first { IfOk result (λ session. IsFirst session.now.edition workplace.new.shelf) }
    ensures ready { IsReady (rows_of tables.now) workplace.new }
{
    let session = active_session(own.sessions(), number)?;
    workplace.hold(tables, session.edition)?;
    Ok(session)
}

/// A session with other texts and flags.
pub(crate) fn with_texts(
    session: &SessionRow,
    typed: Shared<Text>,
    confirmed: Shared<bool>,
) -> SessionRow
    ensures { result ≡ record session.now { typed = typed; confirmed = confirmed } }
{
    SessionRow {
        edition: session.edition,
        typed,
        confirmed,
        stage: session.stage,
        batch: session.batch,
    }
}

/// The place of the newest version of an edition, counted from 0; its book stands first on the shelf.
pub(crate) fn open_edition(
    tables: &Tables,
    workplace: &mut Workplace,
    name: &Str,
) -> Result<u32, Stop>
    requires ready { IsReady (rows_of tables.now) workplace.old }
    ensures finds { Finds result (some_or (newest_edition tables.now.editions.items name.now) (NoSuch kind.Edition)) }
    ensures stands { IfOk result (λ place. place < length tables.now.editions.items) }
    ensures first { IfOk result (λ place. IsFirst place workplace.new.shelf) }
    ensures ready { IsReady (rows_of tables.now) workplace.new }
{
    let Some(place) = newest_of(tables.editions.as_slice(), name.as_str()) else {
        return Err(Stop::Refused(Refusal::NoSuch(Kind::Edition)));
    };
    let edition = place as u32;
    workplace.hold(tables, edition)?;
    Ok(edition)
}
