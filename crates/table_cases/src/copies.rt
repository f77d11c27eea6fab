//! That a copy is equal in each part: what it shows in full is compared with what its origin shows.
ghost use Rattle.desk_words.specs.Tables.{rows_of};
ghost use Rattle.desk_valid.specs.Valid.{AreValid};

use crate::judging::are_tables;
use crate::rows::tables;
use desk_base::{Duplicate, List, Room, Text};
use desk_cases::{Answer, Case};
use desk_valid::{Bound, kit_of, valid};
use desk_words::{
    BatchRow, Change, ClerkRow, EditionRow, RecordRow, RegionRow, RulebookRow, SessionRow, Tables,
    TextRow,
};
use fix_model::{Cell, State, Step};
use std::alloc::Global;
use std::fmt::Debug;
use std::test::Fail;

/// `copied`, where each copy shows what its origin shows.
pub fn told(case: &Case, answer: &mut Answer) -> Result<(), Fail> {
    let tables = tables(answer.alloc(), case)?;
    let tried = try_all(answer.alloc(), &tables);
    drop(tables);
    tried?;
    answer.text("wanted", "copied")
}

/// Fails where these are no valid tables, or a copy out of them shows otherwise than its origin.
fn try_all(alloc: Global, tables: &Tables) -> Result<(), Fail> {
    if !are_tables(tables) {
        return Err(Fail::new("the rows of a case are no tables"));
    }
    if valid(alloc, tables).is_err() {
        return Err(Fail::new("the tables of a case are not valid"));
    }
    try_tables(alloc, tables)?;
    try_kits(alloc, tables)
}

/// Fails where a copy shows otherwise.
fn is_copied<T: Duplicate + Debug + Drop>(alloc: Global, origin: &T) -> Result<(), Fail> {
    let copy = origin.copy()?;
    are_alike(alloc, origin, &copy)
}

/// Fails where a copy shows otherwise than its origin.
fn are_alike<T: Debug>(alloc: Global, origin: &T, copy: &T) -> Result<(), Fail> {
    let shown = format!(in alloc; "{copy:?}")?;
    if shows(alloc, origin, shown.as_str())? {
        Ok(())
    } else {
        Err(Fail::new("a copy shows otherwise"))
    }
}

fn shows<T: Debug>(alloc: Global, value: &T, wanted: &str) -> Result<bool, Fail> {
    let shown = format!(in alloc; "{value:?}")?;
    Ok(shown.as_str() == wanted)
}

/// Fails where a copy of what is handed over shows otherwise.
fn try_copy<T: Duplicate + Debug + Drop>(alloc: Global, origin: T) -> Result<(), Fail> {
    is_copied(alloc, &origin)
}

/// Copies the tables, and each of their rows in a change.
fn try_tables(alloc: Global, tables: &Tables) -> Result<(), Fail> {
    try_rows(alloc, tables)?;
    try_clerks(alloc, tables.clerks.as_slice())?;
    try_published(alloc, tables)?;
    try_all_sessions(alloc, tables.sessions.as_slice())?;
    try_all_records(alloc, tables.records.as_slice())?;
    try_all_batches(alloc, tables.batches.as_slice())
}

/// The tables that are made of the same rows.
fn try_rows(alloc: Global, tables: &Tables) -> Result<(), Fail> {
    let made = tables.copy_rows(alloc)?;
    let alike = are_alike(alloc, tables, &made);
    drop(made);
    alike
}

/// Each clerk, in a change.
fn try_clerks(alloc: Global, rows: &[ClerkRow]) -> Result<(), Fail> {
    for row in rows {
        try_copy(alloc, Change::Clerk(1, row.copy()?))?;
    }
    Ok(())
}

/// The rows that the steward publishes.
fn try_published(alloc: Global, tables: &Tables) -> Result<(), Fail> {
    try_schemas(alloc, tables.schemas.as_slice())?;
    try_masters(alloc, tables.masters.as_slice())?;
    try_rulebooks(alloc, tables.rulebooks.as_slice())?;
    try_editions(alloc, tables.editions.as_slice())?;
    try_regions(alloc, tables.regions.as_slice())
}

/// Each schema, in a change.
fn try_schemas(alloc: Global, rows: &[TextRow]) -> Result<(), Fail> {
    for row in rows {
        try_copy(alloc, Change::Schema(row.copy()?))?;
    }
    Ok(())
}

/// Each master, in a change.
fn try_masters(alloc: Global, rows: &[TextRow]) -> Result<(), Fail> {
    for row in rows {
        try_copy(alloc, Change::Master(row.copy()?))?;
    }
    Ok(())
}

/// Each rulebook, in a change.
fn try_rulebooks(alloc: Global, rows: &[RulebookRow]) -> Result<(), Fail> {
    for row in rows {
        try_copy(alloc, Change::Rulebook(row.copy()?))?;
    }
    Ok(())
}

/// Each edition, in a change.
fn try_editions(alloc: Global, rows: &[EditionRow]) -> Result<(), Fail> {
    for row in rows {
        try_copy(alloc, Change::Edition(row.copy()?))?;
    }
    Ok(())
}

/// Each region, in a change.
fn try_regions(alloc: Global, rows: &[RegionRow]) -> Result<(), Fail> {
    for row in rows {
        try_copy(alloc, Change::Region(row.copy()?))?;
    }
    Ok(())
}

/// The sessions of all clerks.
fn try_all_sessions(alloc: Global, lists: &[Room<SessionRow>]) -> Result<(), Fail> {
    for rows in lists {
        try_sessions(alloc, rows.as_slice())?;
    }
    Ok(())
}

/// The sessions of a clerk, in changes and as states.
fn try_sessions(alloc: Global, rows: &[SessionRow]) -> Result<(), Fail> {
    for row in rows {
        try_copy(alloc, Change::Session(1, 2, row.copy()?))?;
        try_copy(alloc, state(alloc, row.typed.to_list(alloc)?, row)?)?;
    }
    Ok(())
}

/// The state of a session, with its first attribute fixed.
fn state(alloc: Global, typed: List<Text>, row: &SessionRow) -> Result<State, Fail> {
    let mut cells = List::new(alloc);
    for flag in row.confirmed.as_slice() {
        cells.push(if *flag {
            Cell::Confirmed
        } else {
            Cell::Uncovered
        })?;
    }
    cells.push(Cell::Fixed(Step { rule: 3, row: 4 }))?;
    Ok(State { typed, cells })
}

/// The records of all clerks.
fn try_all_records(alloc: Global, lists: &[Room<RecordRow>]) -> Result<(), Fail> {
    for rows in lists {
        try_records(alloc, rows.as_slice())?;
    }
    Ok(())
}

/// The records of a clerk, in changes.
fn try_records(alloc: Global, rows: &[RecordRow]) -> Result<(), Fail> {
    for row in rows {
        try_copy(alloc, Change::Record(3, row.copy()?))?;
    }
    Ok(())
}

/// The batches of all clerks.
fn try_all_batches(alloc: Global, lists: &[Room<BatchRow>]) -> Result<(), Fail> {
    for rows in lists {
        try_batches(alloc, rows.as_slice())?;
    }
    Ok(())
}

/// The batches of a clerk, in changes.
fn try_batches(alloc: Global, rows: &[BatchRow]) -> Result<(), Fail> {
    for row in rows {
        try_copy(alloc, Change::Batch(4, *row))?;
    }
    Ok(())
}

/// Copies the kit of each edition, and its names.
fn try_kits(alloc: Global, tables: &Tables) -> Result<(), Fail>
    requires { AreValid (rows_of tables.now) }
{
    for edition in 0..tables.editions.len() as u32 {
        let bound = kit_of(alloc, tables, edition)?;
        try_bound(alloc, &bound)?;
    }
    Ok(())
}

/// Copies a kit and its names.
fn try_bound(alloc: Global, bound: &Bound) -> Result<(), Fail> {
    is_copied(alloc, &bound.kit)?;
    is_copied(alloc, &bound.names)
}
