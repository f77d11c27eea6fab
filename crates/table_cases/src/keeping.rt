//! Calls of a keeper in memory, some of which fail.
use crate::judging::are_tables;
use crate::rows::tables;
use desk_base::{List, Text};
use desk_cases::{Answer, Case};
use desk_words::{Change, ClerkRow, Tables};
use keeper_core::{KeepFail, Keeper, MemKeeper};
use std::alloc::Global;
use std::test::Fail;

/// What the calls of a case answer, with a space between: `failed`, `done` for a commit, and for a load the number of
/// the steward's last request in the tables that were loaded. The k-th call, where it commits, makes that number k.
pub fn told(case: &Case, answer: &mut Answer) -> Result<(), Fail> {
    let mut keeper = keeper(answer.alloc(), case)?;
    let told = add_answers(&mut keeper, case.text("calls").unwrap_or(""), answer);
    drop(keeper);
    told
}

/// What a keeper answers to these calls.
fn add_answers(keeper: &mut MemKeeper, calls: &str, answer: &mut Answer) -> Result<(), Fail> {
    let mut answers = String::new(answer.alloc());
    tell_all(&mut answers, keeper, calls, answer.alloc())?;
    answer.text("wanted", answers.as_str())
}

fn tell_all(
    answers: &mut String,
    keeper: &mut MemKeeper,
    calls: &str,
    alloc: Global,
) -> Result<(), Fail> {
    let mut number = 0u64;
    for call in calls.split_whitespace() {
        number = number.saturating_add(1);
        if number > 1 {
            answers.push_str(" ")?;
        }
        tell(answers, keeper, call, number, alloc)?;
    }
    Ok(())
}

/// The keeper of a case, with its tables.
fn keeper(alloc: Global, case: &Case) -> Result<MemKeeper, Fail> {
    let (calls, faults) = (count(alloc, case, "made")?, count(alloc, case, "failed")?);
    let fails = List::from_vec(case.numbers(alloc, "fails")?);
    let tables = tables(alloc, case)?;
    if !are_tables(&tables) {
        drop(tables);
        return Err(Fail::new("the rows of a case are no tables"));
    }
    Ok(MemKeeper::after_calls(tables, fails, calls, faults))
}

/// How many calls were made or failed before those of the case, none where it doesn't say.
fn count(alloc: Global, case: &Case, name: &str) -> Result<u64, Fail> {
    match case.numbers(alloc, name)?.as_slice().first() {
        Some(count) => Ok(*count),
        None => Ok(0),
    }
}

/// Tells what a call answers.
fn tell(
    answers: &mut String,
    keeper: &mut MemKeeper,
    call: &str,
    number: u64,
    alloc: Global,
) -> Result<(), Fail> {
    match call {
        "load" => load(answers, keeper),
        "commit" => commit(answers, keeper, number, alloc),
        _ => Err(Fail::new("a keeper has no such call")),
    }
}

fn load(answers: &mut String, keeper: &mut MemKeeper) -> Result<(), Fail> {
    match keeper.load() {
        Ok(tables) => {
            let last = last_of(&tables);
            drop(tables);
            Ok(write!(answers, "{last}")?)
        }
        Err(fail) => tell_failed(answers, fail),
    }
}

/// The number of the steward's last request in these tables.
fn last_of(tables: &Tables) -> u64 {
    let steward = tables.clerks.as_slice().first();
    steward.map_or(0, |steward| steward.last)
}

fn commit(
    answers: &mut String,
    keeper: &mut MemKeeper,
    number: u64,
    alloc: Global,
) -> Result<(), Fail> {
    let mut steward = ClerkRow::new(Text::of(alloc, "steward")?);
    steward.last = number;
    let mut changes = List::new(alloc);
    changes.push(Change::Clerk(0, steward))?;
    let committed = keeper.commit(&changes);
    drop(changes);
    match committed {
        Ok(()) => Ok(answers.push_str("done")?),
        Err(fail) => tell_failed(answers, fail),
    }
}

fn tell_failed(answers: &mut String, fail: KeepFail) -> Result<(), Fail> {
    match fail {
        KeepFail::Failed => Ok(answers.push_str("failed")?),
        KeepFail::NoMemory => Err(Fail::new("there was no memory")),
    }
}
