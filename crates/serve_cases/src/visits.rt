//! Calls of `serve` and `serve_pages` as cases state them.
use crate::answers::{add_answers, add_end};
use crate::calls::{Called, Served, call};
use desk_base::MemLink;
use desk_cases::{Answer, Case, Part};
use desk_trials::{Script, fresh, keeper_of};
use keeper_core::MemKeeper;
use std::alloc::Global;
use std::test::Fail;

/// What the call of a case was answered, and what is left of its door and of its keeper's tables.
pub fn told(called: Called, case: &Case, answer: &mut Answer) -> Result<(), Fail> {
    let mut keeper = keeper_of(answer.alloc(), case)?;
    told_over(called, case, &mut keeper, answer)
}

/// The same over the keeper of the case. Its words name parts of the case alone, as over a script without requests.
fn told_over(
    called: Called,
    case: &Case,
    keeper: &mut MemKeeper,
    answer: &mut Answer,
) -> Result<(), Fail> {
    let words = case.bytes("words")?;
    let served = call(answer.alloc(), called, case, words, keeper)?;
    add_served(case, served, answer)?;
    Script::new(answer.alloc()).add_tables(case, keeper, answer)
}

/// Adds what a call left of the output and of the door.
fn add_served(case: &Case, served: Served, answer: &mut Answer) -> Result<(), Fail> {
    let Served { status, out, door } = served;
    let accepted = door.accepted();
    let closed = door.into_closed();
    tell_call(
        case,
        status,
        out.bytes(),
        accepted,
        closed.as_slice(),
        answer,
    )
}

fn tell_call(
    case: &Case,
    status: u8,
    said: &[u8],
    accepted: Option<u32>,
    closed: &[MemLink],
    answer: &mut Answer,
) -> Result<(), Fail> {
    add_end(status, said, accepted, answer)?;
    add_answers(case, closed, answer)
}

/// What the words of each part `words` of a case are answered, over a door without links.
pub fn each(called: Called, case: &Case, answer: &mut Answer) -> Result<(), Fail> {
    for part in &case.parts {
        if part.name.as_str() == "words" {
            add_one(called, case, part, answer)?;
        }
    }
    Ok(())
}

/// Adds what the call with these words left, and the words where another thing was said than is wanted.
fn add_one(called: Called, case: &Case, words: &Part, answer: &mut Answer) -> Result<(), Fail> {
    let served = alone(answer.alloc(), called, case, words.content.as_slice())?;
    tell_one(case, words, &served, answer)
}

fn tell_one(case: &Case, words: &Part, served: &Served, answer: &mut Answer) -> Result<(), Fail> {
    let said = served.out.bytes();
    if case.part("said") != Some(said) {
        answer.bytes("answered otherwise", words.content.as_slice())?;
    }
    add_end(served.status, said, served.door.accepted(), answer)
}

/// Makes a call with these words over an empty desk.
fn alone(alloc: Global, called: Called, case: &Case, words: &[u8]) -> Result<Served, Fail> {
    let mut keeper = fresh(alloc)?;
    call(alloc, called, case, words, &mut keeper)
}
