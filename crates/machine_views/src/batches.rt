//! Batches, with the verdicts on their sessions.
ghost use Rattle.std.specs.Prelude.{◌≡◌, ◌+◌, ◌-◌, ◌<◌, ◌≤◌, ◌^◌, All, IfOk, drop, length, map, take};
ghost use Rattle.desk_words.specs.Tables.{published_of, rows_of};
ghost use Rattle.machine_workplace.specs.Ready.{IsReady};
ghost use Rattle.machine_core.specs.Sessions.{IsSessionOf};
ghost use Rattle.machine_views.specs.Counts.{AreAtMost, AreSessionVerdicts, batched};

use crate::counting::{Verdicts, upshot_at};
use desk_base::NoMemory;
use desk_words::{BatchRow, Batched, SessionRow, Tables};
use machine_workplace::{SessionAt, Workplace};

/// How many of some sessions of a clerk, which stand one after another from a place on, have each verdict.
pub fn session_verdicts(
    tables: &Tables,
    workplace: &mut Workplace,
    first: SessionAt,
    sessions: &[SessionRow],
) -> Result<Verdicts, NoMemory>
    requires ready { IsReady (rows_of tables.now) workplace.old }
    requires sessions { All (IsSessionOf (published_of (rows_of tables.now))) sessions.now }
    requires few { length sessions.now < 2 ^ 32 }
    ensures verdicts { IfOk result (AreSessionVerdicts (published_of (rows_of tables.now)) sessions.now) }
    ensures few { IfOk result (AreAtMost (length sessions.now)) }
    ensures ready { IsReady (rows_of tables.now) workplace.new }
{
    let mut verdicts = Verdicts::none();
    'sessions: for (next, session) in sessions.iter().enumerate() {
        let at = first.after(next as u32);
        let upshot = upshot_at(tables, workplace, at, session)?;
        verdicts = verdicts.with(upshot.verdict);
    }
    Ok(verdicts)
}

/// How many of the sessions of a clerk that are put somewhere have each verdict.
pub fn put_verdicts(
    tables: &Tables,
    workplace: &mut Workplace,
    clerk: u32,
    puts: &[(u32, SessionRow)],
) -> Result<Verdicts, NoMemory>
    requires ready { IsReady (rows_of tables.now) workplace.old }
    requires sessions { All (λ put. IsSessionOf (published_of (rows_of tables.now)) put.1) puts.now }
    requires few { length puts.now < 2 ^ 32 }
    ensures verdicts { IfOk result
        (AreSessionVerdicts (published_of (rows_of tables.now)) (map (λ put. put.1) puts.now)) }
    ensures few { IfOk result (AreAtMost (length puts.now)) }
    ensures ready { IsReady (rows_of tables.now) workplace.new }
{
    let mut verdicts = Verdicts::none();
    'puts: for put in puts {
        let at = SessionAt {
            clerk,
            place: put.0,
        };
        let upshot = upshot_at(tables, workplace, at, &put.1)?;
        verdicts = verdicts.with(upshot.verdict);
    }
    Ok(verdicts)
}

/// The sessions of a batch.
pub fn sessions_in<'s>(sessions: &'s [SessionRow], row: &BatchRow) -> &'s [SessionRow]
    requires counted { 1 ≤ row.now.first }
    requires within { row.now.first + row.now.count ≤ length sessions.now + 1 }
    ensures sessions { result.now ≡ take row.now.count (drop (row.now.first - 1) sessions.now) }
    ensures count { length result.now ≡ row.now.count }
{
    let first = row.first as usize - 1;
    &sessions[first..first + row.count as usize]
}

/// What is told of a batch of this number, counted from 1, whose sessions have these verdicts.
pub fn batched(number: u32, row: &BatchRow, verdicts: Verdicts) -> Batched
    requires most { AreAtMost row.now.count verdicts }
    requires word { row.now.count < 2 ^ 32 }
    ensures { result ≡ batched number row.now verdicts }
{
    Batched {
        batch: number,
        first: row.first,
        rows: row.count,
        certain: verdicts.certain as u32,
        partial: verdicts.partial as u32,
        conflict: verdicts.conflict as u32,
    }
}
