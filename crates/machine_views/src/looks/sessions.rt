//! Sessions: a clerk's sessions from a number on.
ghost use Rattle.std.specs.Prelude.{◌≡◌, ◌⊎◌, ◌+◌, ◌-◌, ◌<◌, ◌^◌, All, IfOk, None, Some, [], length, map, nat_lt};
ghost use Rattle.std.specs.Prelude.{if◌then◌else◌, zip};
ghost use Rattle.std.specs.List.{range_with_len};
ghost use Rattle.desk_words.specs.Tables.{published_of, rows_of};
ghost use Rattle.desk_words.specs.declared.report.TheConstants.{MAX_LISTED};
ghost use Rattle.desk_valid.specs.Valid.{AreValid};
ghost use Rattle.machine_core.specs.Look.Sessions.{page_after, session_line};
ghost use Rattle.machine_core.specs.Own.{IsOwn};

use desk_base::{Duplicate, List, NoMemory};
use desk_words::{MAX_LISTED, SessionLine, SessionPage, SessionRow, Tables};
use machine_core::Own;
use std::alloc::Global;

/// The page of a clerk's sessions from a number on, which is counted from 1: [`MAX_LISTED`] sessions at most, and the
/// number of the next. No book is asked for, and no other session is looked at.
pub fn sessions_from(
    alloc: Global,
    tables: &Tables,
    own: &Own,
    from: u32,
) -> Result<SessionPage, NoMemory>
    requires valid { AreValid (rows_of tables.now) }
    requires own { IsOwn (rows_of tables.now) own.now }
    ensures { IfOk result
        (λ page. page ≡ page_after (published_of (rows_of tables.now)) own.now.sessions (from - 1)) }
{
    let before = from.saturating_sub(1) as usize;
    let sessions = own.sessions();
    let later = &sessions[before.min(sessions.len())..];
    let shown = &later[..MAX_LISTED.min(later.len())];
    let lines = session_lines(alloc, tables, before, shown)?;
    Ok(SessionPage {
        lines,
        next: number_after(before, later),
    })
}

/// The number of the first session after a page, where there is one: so many come before the page.
fn number_after(before: usize, later: &[SessionRow]) -> Option<u32>
    requires { before + length later.now < 2 ^ 31 ⊎ later.now ≡ [] }
    ensures { result ≡ (if nat_lt MAX_LISTED (length later.now) then Some (before + MAX_LISTED + 1) else None) }
{
    if MAX_LISTED < later.len() {
        Some((before + MAX_LISTED) as u32 + 1)
    } else {
        None
    }
}

/// The lines of sessions, each with its number: so many come before them.
fn session_lines(
    alloc: Global,
    tables: &Tables,
    before: usize,
    sessions: &[SessionRow],
) -> Result<List<SessionLine>, NoMemory>
    requires few { before + length sessions.now < 2 ^ 31 ⊎ sessions.now ≡ [] }
    requires stand { All (λ session. session.edition < length tables.now.editions.items) sessions.now }
    ensures { IfOk result (λ lines. lines ≡ map (session_line (published_of (rows_of tables.now)))
        (zip (range_with_len (before + 1) (length sessions.now)) sessions.now)) }
{
    let mut lines = List::new(alloc);
    'sessions: for (place, session) in sessions.iter().enumerate() {
        lines.push(session_line(tables, (before + place) as u32 + 1, session)?)?;
    }
    Ok(lines)
}

/// A session with its number, and the edition that it is on by name and version.
fn session_line(tables: &Tables, number: u32, session: &SessionRow) -> Result<SessionLine, NoMemory>
    requires { session.now.edition < length tables.now.editions.items }
    ensures { IfOk result (λ line. line ≡ session_line (published_of (rows_of tables.now)) (number, session.now)) }
{
    let edition = &tables.editions.as_slice()[session.edition as usize];
    Ok(SessionLine {
        number,
        edition: edition.name.copy()?,
        version: edition.version,
        stage: session.stage,
    })
}
