//! Keepers in memory, and what their tables show.
use desk_base::{List, Room, Text};
use desk_cases::Case;
use desk_words::{Change, ClerkRow, Tables};
use keeper_core::{Keeper, MemKeeper};
use std::alloc::{AllocError, Global};
use std::fmt::Debug;
use std::test::Fail;

/// A keeper of the tables of an empty desk, none of whose calls fails.
pub fn fresh(alloc: Global) -> Result<MemKeeper, Fail> {
    failing(alloc, List::new(alloc))
}

/// A keeper of the tables of an empty desk, of which these calls, counted from 1, fail.
fn failing(alloc: Global, fails: List<u64>) -> Result<MemKeeper, Fail> {
    Ok(MemKeeper::new(Tables::empty(alloc)?, fails))
}

/// The keeper of a case: its calls in `fails` fail, and its first clerk has the name in `steward`, where the case says
/// one.
pub fn keeper_of(alloc: Global, case: &Case) -> Result<MemKeeper, Fail> {
    let fails = List::from_vec(case.numbers(alloc, "fails")?);
    let mut keeper = failing(alloc, fails)?;
    if let Some(name) = case.text("steward") {
        rename(alloc, &mut keeper, name)?;
    }
    Ok(keeper)
}

/// Gives the first clerk another name, which counts as a call.
fn rename(alloc: Global, keeper: &mut MemKeeper, name: &str) -> Result<(), Fail> {
    let Ok(name) = Text::new(alloc, name.as_bytes()) else {
        return Err(Fail::new("the name of a first clerk is no text"));
    };
    let mut changes = List::new(alloc);
    changes.push(Change::Clerk(0, ClerkRow::new(name)))?;
    match keeper.commit(&changes) {
        Ok(()) => Ok(()),
        Err(_) => Err(Fail::new("a keeper did not take the name of its first clerk")),
    }
}

/// What a keeper's tables show: each row in a line, and an empty line after each list.
pub fn shown<K: Keeper>(alloc: Global, keeper: &mut K) -> Result<String, Fail> {
    let Ok(tables) = keeper.load() else {
        return Err(Fail::new("a keeper did not load its tables"));
    };
    let shown = shown_tables(alloc, &tables);
    drop(tables);
    shown
}

/// What tables show.
fn shown_tables(alloc: Global, tables: &Tables) -> Result<String, Fail> {
    let mut shown = String::new(alloc);
    tell_published(&mut shown, tables)?;
    tell_own(&mut shown, tables)?;
    Ok(shown)
}

/// The clerks, and what stewards published.
fn tell_published(shown: &mut String, tables: &Tables) -> Result<(), AllocError> {
    tell_rows(shown, tables.clerks.as_slice())?;
    tell_rows(shown, tables.schemas.as_slice())?;
    tell_rows(shown, tables.masters.as_slice())?;
    tell_rows(shown, tables.rulebooks.as_slice())?;
    tell_rows(shown, tables.editions.as_slice())?;
    tell_rows(shown, tables.regions.as_slice())
}

/// What clerks have of their own.
fn tell_own(shown: &mut String, tables: &Tables) -> Result<(), AllocError> {
    tell_lists(shown, tables.sessions.as_slice())?;
    tell_lists(shown, tables.records.as_slice())?;
    tell_lists(shown, tables.batches.as_slice())
}

fn tell_lists<T: Debug>(shown: &mut String, lists: &[Room<T>]) -> Result<(), AllocError> {
    for list in lists {
        tell_rows(shown, list.as_slice())?;
    }
    Ok(())
}

fn tell_rows<T: Debug>(shown: &mut String, rows: &[T]) -> Result<(), AllocError> {
    for row in rows {
        writeln!(shown, "{row:?}")?;
    }
    shown.push_str("\n")
}
