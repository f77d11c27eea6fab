//! The rows of the clerks' own lists. The first field is the clerk, counted from 0.
use crate::fields::{field, flags, number, stage, texts};
use desk_base::{NoMemory, Room, Shared};
use desk_words::{BatchRow, RecordRow, SessionRow, Tables};
use std::alloc::Global;
use std::test::Fail;

/// A row of the sessions, the records or the batches.
pub fn own_row(alloc: Global, tables: &mut Tables, table: &str, line: &str) -> Result<(), Fail> {
    let (clerk, line) = field(line)?;
    let clerk = number(clerk)?;
    match table {
        "session" => Ok(push(&mut tables.sessions, clerk, session(alloc, line)?)?),
        "record" => Ok(push(&mut tables.records, clerk, record(alloc, line)?)?),
        "batch" => Ok(push(&mut tables.batches, clerk, batch(line)?)?),
        _ => Err(Fail::new("a case has a part that is no row")),
    }
}

/// After the clerk's others. A clerk who is not there has no list.
fn push<T: Drop>(lists: &mut Room<Room<T>>, clerk: u32, row: T) -> Result<(), NoMemory> {
    let place = clerk as usize;
    if place < lists.len() {
        lists.slot(place).push(row)?;
    }
    Ok(())
}

/// Edition, typed texts, confirmed flags, stage and batch.
fn session(alloc: Global, line: &str) -> Result<SessionRow, Fail> {
    let (edition, line) = field(line)?;
    let (typed, line) = field(line)?;
    let (confirmed, line) = field(line)?;
    let (reached, batch) = field(line)?;
    let (edition, stage, batch) = (number(edition)?, stage(reached)?, number(batch)?);
    let typed = texts(alloc, typed)?;
    let confirmed = flags(alloc, confirmed)?;
    Ok(SessionRow {
        edition,
        typed: Shared::of(typed)?,
        confirmed: Shared::of(confirmed)?,
        stage,
        batch,
    })
}

/// Session, texts, and whether it is certain.
fn record(alloc: Global, line: &str) -> Result<RecordRow, Fail> {
    let (session, line) = field(line)?;
    let (values, certain) = field(line)?;
    Ok(RecordRow {
        session: number(session)?,
        texts: texts(alloc, values)?,
        certain: certain == "y",
    })
}

/// Edition, first session and count.
fn batch(line: &str) -> Result<BatchRow, Fail> {
    let (edition, line) = field(line)?;
    let (first, count) = field(line)?;
    Ok(BatchRow {
        edition: number(edition)?,
        first: number(first)?,
        count: number(count)?,
    })
}
