//! Records: a clerk's records over a version of an edition.
ghost use Rattle.std.specs.Prelude.{◌≡◌, ◌==◌, ◌<◌, ◌^◌, IfOk, false, filter, length, map, zip};
ghost use Rattle.std.specs.List.{range_with_len};
ghost use Rattle.std.specs.Option.{option_map_or};
ghost use Rattle.desk_words.specs.Tables.{published_of, rows_of};
ghost use Rattle.desk_valid.specs.Valid.{AreValid};
ghost use Rattle.machine_core.specs.Finding.{session_at};
ghost use Rattle.machine_core.specs.Look.Records.{is_on, record_line, records_of};
ghost use Rattle.machine_core.specs.Outcomes.{Answers};
ghost use Rattle.machine_core.specs.Own.{IsOwn};

use desk_base::{Duplicate, List, NoMemory, Str};
use desk_words::{Kind, RecordLine, RecordRow, RecordSheet, SessionRow, Tables};
use machine_core::{Own, Stop, named, session_at, words_of};
use std::alloc::Global;

/// The records of a clerk whose sessions are on a version of an edition, each with its number. No book is asked for.
pub fn records_of(
    alloc: Global,
    tables: &Tables,
    own: &Own,
    edition: &Str,
    version: u32,
) -> Result<RecordSheet, Stop>
    requires valid { AreValid (rows_of tables.now) }
    requires own { IsOwn (rows_of tables.now) own.now }
    ensures records { Answers result
        (records_of (published_of (rows_of tables.now)) own.now edition.now version) }
{
    let place = named(tables.editions.as_slice(), edition, version, Kind::Edition)?;
    let attributes = words_of(alloc, tables, place)?;
    let lines = lines_on(alloc, own, place)?;
    Ok(RecordSheet { attributes, lines })
}

/// The records whose sessions are on an edition, each with its number.
fn lines_on(alloc: Global, own: &Own, edition: u32) -> Result<List<RecordLine>, NoMemory>
    requires { length own.now.records < 2 ^ 31 }
    ensures { IfOk result (λ lines. lines ≡ map record_line
        (filter (is_on own.now edition) (zip (range_with_len 1 (length own.now.records)) own.now.records))) }
{
    let mut lines = List::new(alloc);
    'records: for (place, row) in own.records().iter().enumerate() {
        if is_on(own.sessions(), edition, row) {
            lines.push(record_line(place as u32 + 1, row)?)?;
        }
    }
    Ok(lines)
}

/// Whether the session of a record is on an edition.
fn is_on(sessions: &[SessionRow], edition: u32, row: &RecordRow) -> bool
    ensures { result ≡ option_map_or (λ session. session.edition == edition)
        (session_at sessions.now row.now.session) false }
{
    match session_at(sessions, row.session) {
        Some(session) => session.edition == edition,
        None => false,
    }
}

/// A record with its number, counted from 1.
fn record_line(number: u32, row: &RecordRow) -> Result<RecordLine, NoMemory>
    ensures { IfOk result (λ line. line ≡ record_line (number, row.now)) }
{
    Ok(RecordLine {
        number,
        session: row.session,
        certain: row.certain,
        texts: row.texts.copy()?,
    })
}
