//! The replies to a clerk's writes: over the clerk's rows as they stand, and over those that a deed leaves.
ghost use Rattle.std.specs.Prelude.{◌≡◌, ◌+◌, ◌∷◌, ◌<◌, [], All, IfOk, IsSome, Ok, OnOk, Some, length};
ghost use Rattle.desk_words.specs.Tables.{published_of, rows_of};
ghost use Rattle.machine_workplace.specs.Ready.{IsReady};
ghost use Rattle.machine_core.specs.Checked.{Gives};
ghost use Rattle.machine_core.specs.Kept.{kept_reply};
ghost use Rattle.machine_core.specs.Look.View.{view_at};
ghost use Rattle.machine_core.specs.Own.{IsOwn, after};
ghost use Rattle.machine_core.specs.OwnRows.{HasOwnTarget, IsSoundDeed};
ghost use Rattle.machine_core.specs.Shelves.{IsFirst};
ghost use Rattle.machine_views.specs.Doing.{DoesAsTold, PutsBatch, PutsOne, StandsFirst};
ghost use Rattle.machine_views.specs.Looking.{IsSessionFirst, IsTargetFirst};

use crate::batches::{batched, put_verdicts, session_verdicts, sessions_in};
use crate::views::{view_and_upshot, view_of};
use desk_base::NoMemory;
use desk_words::{Act, BatchRow, Batched, RecordRow, Reply, SessionRow, Tables, View};
use machine_core::{Deed, Own};
use machine_workplace::{SessionAt, Workplace};

/// The reply of an act of the clerk at a place, whose target is a place counted from 0: what is replied to its repeat.
/// The edition of a session that is shown comes first on the shelf.
pub fn kept_reply(
    tables: &Tables,
    workplace: &mut Workplace,
    clerk: u32,
    own: &Own,
    act: Act,
    target: u32,
) -> Result<Reply, NoMemory>
    requires ready { IsReady (rows_of tables.now) workplace.old }
    requires own { IsOwn (rows_of tables.now) own.now }
    requires target { HasOwnTarget own.now act target }
    ensures reply { IfOk result
        (λ reply. Gives (kept_reply (published_of (rows_of tables.now)) own.now act target) (Ok reply)) }
    ensures first { OnOk result (IsTargetFirst own.now.sessions act target workplace.new.shelf) }
    ensures ready { IsReady (rows_of tables.now) workplace.new }
{
    match act {
        Act::Opened => Ok(Reply::Opened(view_kept(tables, workplace, own, target)?)),
        Act::Changed => Ok(Reply::View(view_kept(tables, workplace, own, target)?)),
        Act::Committed => Ok(committed(target + 1, &own.records()[target as usize])),
        Act::Batched => Ok(Reply::Batched(batch_kept(tables, workplace, clerk, own, target)?)),
        // A clerk has no other acts.
        _ => unreachable!(),
    }
}

/// The session at a place, counted from 0, as it stands. Its edition comes first on the shelf.
fn view_kept(
    tables: &Tables,
    workplace: &mut Workplace,
    own: &Own,
    place: u32,
) -> Result<View, NoMemory>
    requires ready { IsReady (rows_of tables.now) workplace.old }
    requires own { IsOwn (rows_of tables.now) own.now }
    requires place { place < length own.now.sessions }
    ensures view { IfOk result
        (λ view. Gives (view_at (published_of (rows_of tables.now)) own.now (place + 1)) (Ok view)) }
    ensures first { OnOk result (IsSessionFirst own.now.sessions (place + 1) workplace.new.shelf) }
    ensures ready { IsReady (rows_of tables.now) workplace.new }
{
    let session = &own.sessions()[place as usize];
    view_of(tables, workplace, place + 1, session)
}

/// The batch at a place, counted from 0, with the verdicts on its sessions.
fn batch_kept(
    tables: &Tables,
    workplace: &mut Workplace,
    clerk: u32,
    own: &Own,
    place: u32,
) -> Result<Batched, NoMemory>
    requires ready { IsReady (rows_of tables.now) workplace.old }
    requires own { IsOwn (rows_of tables.now) own.now }
    requires place { place < length own.now.batches }
    ensures batch { IfOk result (λ batch. Gives
        (kept_reply (published_of (rows_of tables.now)) own.now Act.Batched place) (Ok (Reply.Batched batch))) }
    ensures ready { IsReady (rows_of tables.now) workplace.new }
{
    let row = &own.batches()[place as usize];
    let sessions = sessions_in(own.sessions(), row);
    let first = SessionAt {
        clerk,
        place: row.first - 1,
    };
    let verdicts = session_verdicts(tables, workplace, first, sessions)?;
    Ok(batched(place + 1, row, verdicts))
}

/// The reply of a new write of the clerk at a place, over the rows after it.
pub fn deed_reply(
    tables: &Tables,
    workplace: &mut Workplace,
    clerk: u32,
    own: &Own,
    deed: &Deed,
) -> Result<Reply, NoMemory>
    requires ready { IsReady (rows_of tables.now) workplace.old }
    requires sound { IsSoundDeed (published_of (rows_of tables.now)) own.now deed.now }
    requires told { DoesAsTold own.now deed.now deed.now.act }
    ensures reply { IfOk result (λ reply. Gives
        (kept_reply (published_of (rows_of tables.now)) (after own.now deed.now) deed.now.act deed.now.target)
        (Ok reply)) }
    ensures first { OnOk result (StandsFirst deed.now deed.now.act workplace.new.shelf) }
    ensures ready { IsReady (rows_of tables.now) workplace.new }
{
    match deed.act {
        Act::Opened => Ok(Reply::Opened(view_put(tables, workplace, clerk, own, deed)?)),
        Act::Changed => Ok(Reply::View(view_put(tables, workplace, clerk, own, deed)?)),
        Act::Committed => Ok(committed(deed.target + 1, put_record(deed))),
        Act::Batched => Ok(Reply::Batched(batch_put(tables, workplace, clerk, own, deed)?)),
        // A clerk has no other acts.
        _ => unreachable!(),
    }
}

/// The session that a deed puts alone, as it stands then. Its edition comes first on the shelf, and what it comes to is
/// kept.
fn view_put(
    tables: &Tables,
    workplace: &mut Workplace,
    clerk: u32,
    own: &Own,
    deed: &Deed,
) -> Result<View, NoMemory>
    requires ready { IsReady (rows_of tables.now) workplace.old }
    requires sound { IsSoundDeed (published_of (rows_of tables.now)) own.now deed.now }
    requires one { PutsOne deed.now }
    ensures view { IfOk result (λ view. Gives
        (view_at (published_of (rows_of tables.now)) (after own.now deed.now) (deed.now.target + 1)) (Ok view)) }
    ensures first { OnOk result (All (λ put. IsFirst put.1.edition workplace.new.shelf) deed.now.sessions) }
    ensures ready { IsReady (rows_of tables.now) workplace.new }
{
    let session = put_session(deed);
    let number = deed.target + 1;
    let (view, upshot) = view_and_upshot(tables, workplace, number, session)?;
    let at = SessionAt {
        clerk,
        place: deed.target,
    };
    workplace.upshots.note(at, session, upshot);
    Ok(view)
}

/// The batch that a deed puts, with the verdicts on its sessions.
fn batch_put(
    tables: &Tables,
    workplace: &mut Workplace,
    clerk: u32,
    own: &Own,
    deed: &Deed,
) -> Result<Batched, NoMemory>
    requires ready { IsReady (rows_of tables.now) workplace.old }
    requires sound { IsSoundDeed (published_of (rows_of tables.now)) own.now deed.now }
    requires batch { PutsBatch own.now deed.now }
    ensures batch { IfOk result (λ batch. Gives
        (kept_reply (published_of (rows_of tables.now)) (after own.now deed.now) Act.Batched deed.now.target)
        (Ok (Reply.Batched batch))) }
    ensures ready { IsReady (rows_of tables.now) workplace.new }
{
    let sessions = deed.sessions.as_slice();
    let verdicts = put_verdicts(tables, workplace, clerk, sessions)?;
    Ok(batched(deed.target + 1, put_batch(deed), verdicts))
}

/// The session that a deed puts at its target, alone.
fn put_session(deed: &Deed) -> &SessionRow
    requires { PutsOne deed.now }
    ensures { deed.now.sessions ≡ (deed.now.target, result.now) ∷ [] }
{
    &deed.sessions.as_slice()[0].1
}

/// The record that a deed puts after the others.
fn put_record(deed: &Deed) -> &RecordRow
    requires { IsSome deed.now.record_row }
    ensures { deed.now.record_row ≡ Some result.now }
{
    deed.record_row.as_ref().unwrap()
}

/// The batch that a deed puts after the others.
fn put_batch(deed: &Deed) -> &BatchRow
    requires { IsSome deed.now.batch }
    ensures { deed.now.batch ≡ Some result.now }
{
    deed.batch.as_ref().unwrap()
}

/// The reply of a commit, by the record of this number, counted from 1.
fn committed(number: u32, row: &RecordRow) -> Reply
    ensures { result ≡ Reply.Committed number row.now.session row.now.certain }
{
    Reply::Committed {
        number,
        session: row.session,
        certain: row.certain,
    }
}
