//! A session carried to a newer version of its edition.
ghost use Rattle.std.specs.Prelude.{◌≡◌, ◌<◌, ◌≤◌, OnOk, IfOk, Some, length};
ghost use Rattle.desk_words.specs.Tables.{published_of, rows_of};
ghost use Rattle.desk_valid.specs.declared.bound.Bound.{Bound as BoundOf};
ghost use Rattle.desk_valid.specs.Bindings.{bound_at};
ghost use Rattle.desk_valid.specs.Valid.{AreValid};
ghost use Rattle.machine_core.specs.Clerk.Carry.{carried_to, carry_row};
ghost use Rattle.machine_core.specs.Outcomes.{Finds};
ghost use Rattle.machine_core.specs.Own.{IsOwn};
ghost use Rattle.machine_core.specs.Sessions.{IsSessionOf};

use crate::finding::place_of;
use crate::own::Own;
use crate::sessions::active_session;
use crate::stop::Stop;
use crate::words::words_of;
use desk_base::{NoMemory, Shared};
use desk_carry::moved;
use desk_words::{Kind, Refusal, SessionRow, Tables};
use std::alloc::Global;

/// The session with this number, counted from 1, which is active, over the version of its edition that is named. That
/// one is newer than its own.
pub fn carry_row(
    alloc: Global,
    tables: &Tables,
    own: &Own,
    number: u32,
    version: u32,
) -> Result<SessionRow, Stop>
    requires valid { AreValid (rows_of tables.now) }
    requires own { IsOwn (rows_of tables.now) own.now }
    ensures finds { Finds result (carry_row (published_of (rows_of tables.now)) own.now number version) }
    ensures counted { OnOk result (1 ≤ number) }
    ensures stands { IfOk result (IsSessionOf (published_of (rows_of tables.now))) }
{
    let session = active_session(own.sessions(), number)?;
    let editions = tables.editions.as_slice();
    let pinned = &editions[session.edition as usize];
    let Some(edition) = place_of(editions, pinned.name.as_str(), version) else {
        return Err(Stop::Refused(Refusal::NoSuch(Kind::Edition)));
    };
    if version <= pinned.version {
        return Err(Stop::Refused(Refusal::NotNewer(u64::from(pinned.version))));
    }
    Ok(carried_to(alloc, tables, session, edition as u32)?)
}

/// The session over the edition at a place, counted from 0.
fn carried_to(
    alloc: Global,
    tables: &Tables,
    session: &SessionRow,
    edition: u32,
) -> Result<SessionRow, NoMemory>
    requires valid { AreValid (rows_of tables.now) }
    requires session { IsSessionOf (published_of (rows_of tables.now)) session.now }
    requires edition { edition < length tables.now.editions.items }
    ensures { IfOk result (λ carried. (before after : BoundOf)
        → bound_at (published_of (rows_of tables.now)) session.now.edition ≡ Some before
        → bound_at (published_of (rows_of tables.now)) edition ≡ Some after
        → carried ≡ carried_to session.now edition before after) }
{
    let before = words_of(alloc, tables, session.edition)?;
    let after = words_of(alloc, tables, edition)?;
    let moved = moved(
        alloc,
        before.as_slice(),
        after.as_slice(),
        session.typed.as_slice(),
        session.confirmed.as_slice(),
    )?;
    Ok(SessionRow {
        edition,
        typed: Shared::of(moved.typed)?,
        confirmed: Shared::of(moved.confirmed)?,
        stage: session.stage,
        batch: session.batch,
    })
}
