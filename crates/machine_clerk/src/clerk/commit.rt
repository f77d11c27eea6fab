//! Commit: the record at the end of the first run is kept.
ghost use Rattle.std.specs.Prelude.{◌≡◌, ◌≤◌, OnOk, IfOk, length};
ghost use Rattle.desk_words.specs.Tables.{published_of, rows_of};
ghost use Rattle.machine_workplace.specs.Ready.{IsReady};
ghost use Rattle.fix_engine.specs.WorkSeen.{IsRoomFor, KeepsSize};
ghost use Rattle.fix_model.specs.States.{Fits, record_of, uncovered_count};
ghost use Rattle.machine_core.specs.Answers.{state_of};
ghost use Rattle.machine_core.specs.Clerk.Commit.{accepted_record, accepts, commit, commit_rows, fixed_end};
ghost use Rattle.machine_core.specs.Outcomes.{Answers, Finds, WantsNone};
ghost use Rattle.machine_core.specs.Own.{IsOwn};
ghost use Rattle.machine_core.specs.Shelves.{bound_on};

use crate::clerk::bytes::{bytes_in, within_bytes};
use crate::clerk::opening::open_session;
use desk_base::{Duplicate, List, NoMemory, Steps, Text};
use desk_words::{Accept, Act, RecordRow, Refusal, SessionRow, Stage, Tables};
use fix_engine::{Verdict, Work, apply, decide};
use fix_model::{Book, Cell, State, value_text};
use machine_core::{Deed, Own, Stop, shelved, state_of};
use machine_workplace::Workplace;
use master_index::{Shelved, SortedBook};
use std::alloc::Global;

/// Commit: the record at the end of the first run is kept.
pub fn commit_deed(
    tables: &Tables,
    workplace: &mut Workplace,
    own: &Own,
    number: u32,
    accept: Accept,
) -> Result<Deed, Stop>
    requires ready { IsReady (rows_of tables.now) workplace.old }
    requires own { IsOwn (rows_of tables.now) own.now }
    ensures answers { Answers result (commit (published_of (rows_of tables.now)) own.now number accept) }
    ensures ready { IsReady (rows_of tables.now) workplace.new }
{
    let (session, row) = commit_rows(tables, workplace, own, number, accept)?;
    let mut sessions = List::new(workplace.alloc);
    sessions.push((number - 1, session))?;
    Ok(Deed {
        sessions,
        record_row: Some(row),
        batch: None,
        act: Act::Committed,
        target: own.records().len() as u32,
    })
}

/// The session that is committed, and its record.
fn commit_rows(
    tables: &Tables,
    workplace: &mut Workplace,
    own: &Own,
    number: u32,
    accept: Accept,
) -> Result<(SessionRow, RecordRow), Stop>
    requires ready { IsReady (rows_of tables.now) workplace.old }
    requires own { IsOwn (rows_of tables.now) own.now }
    ensures answers { Answers result (commit_rows (published_of (rows_of tables.now)) own.now number accept) }
    ensures counted { OnOk result (1 ≤ number) }
    ensures ready { IsReady (rows_of tables.now) workplace.new }
{
    let session = open_session(tables, workplace, own, number)?;
    let shelved = shelved(&workplace.shelf, session.edition);
    let end = fixed_end(
        &mut workplace.room,
        &shelved.book,
        state_of(workplace.alloc, session)?,
    )?;
    let row = accepted_record(workplace.alloc, shelved, &end, number, accept)?;
    within_bytes(own, bytes_in(row.texts.as_slice()))?;
    let mut after = session.copy()?;
    after.stage = Stage::Committed;
    Ok((after, row))
}

/// The state at the end of the first run, where the rules make a fix of the state. No want of memory is answered.
fn fixed_end(work: &mut Work, book: &SortedBook, mut state: State) -> Result<State, Stop>
    requires fits { Fits book.now state }
    requires room { IsRoomFor work.old book.now }
    ensures answers { Answers result (fixed_end book.now state) }
    ensures memory { WantsNone result }
    ensures fits { IfOk result (Fits book.now) }
    ensures size { KeepsSize work.old work.new }
{
    let mut steps = Steps::new(());
    match decide(work, book, &mut state, &mut steps) {
        Verdict::Fix { .. } => {
            apply::<(), SortedBook>(book, &mut state, work.first());
            Ok(state)
        }
        Verdict::Conflict => Err(Stop::Refused(Refusal::InConflict)),
    }
}

/// The record of an end, where its uncovered attributes are accepted.
fn accepted_record(
    alloc: Global,
    shelved: &Shelved,
    end: &State,
    number: u32,
    accept: Accept,
) -> Result<RecordRow, Stop>
    requires { Fits shelved.now.book end.now }
    ensures finds { Finds result (accepted_record (bound_on shelved.now) number accept end.now) }
    ensures whole { IfOk result (λ row. length row.texts ≡ shelved.now.book.width) }
{
    let uncovered = uncovered_count(end);
    accepts(accept, uncovered)?;
    Ok(RecordRow {
        session: number,
        texts: texts_of(alloc, &shelved.book, end)?,
        certain: uncovered == 0,
    })
}

/// So many uncovered attributes are accepted. No want of memory is answered.
fn accepts(accept: Accept, uncovered: u64) -> Result<(), Stop>
    ensures finds { Finds result (accepts accept uncovered) }
    ensures memory { WantsNone result }
{
    match accept {
        Accept::Certain if uncovered > 0 => Err(Stop::Refused(Refusal::NotCertain(uncovered))),
        Accept::Certain | Accept::Partial => Ok(()),
    }
}

/// How many attributes are uncovered.
fn uncovered_count(state: &State) -> u64
    ensures { result ≡ uncovered_count state.now }
{
    let cells = state.cells.as_slice().iter();
    cells.filter(|cell| **cell == Cell::Uncovered).count() as u64
}

/// The value of each attribute.
fn texts_of(alloc: Global, book: &SortedBook, state: &State) -> Result<List<Text>, NoMemory>
    requires { Fits book.now state.now }
    ensures texts { IfOk result (λ texts. texts ≡ record_of book.now state.now) }
    ensures whole { IfOk result (λ texts. length texts ≡ book.now.width) }
{
    let width = Book::<()>::width(book);
    let mut texts = List::new(alloc);
    'attributes: for attribute in 0..width {
        texts.push(value_text::<(), SortedBook>(book, state, attribute)?)?;
    }
    Ok(texts)
}
