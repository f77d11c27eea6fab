//! The stream that the generator makes, served over a keeper, and the desk's report over that keeper then.
use desk_base::List;
use desk_cases::{Answer, Case};
use desk_trials::{Call, Told, call_words, fresh, words_of};
use fixdesk_run::made;
use keeper_core::MemKeeper;
use std::alloc::Global;
use std::test::Fail;

/// How many bytes the responses to the longest stream have room in.
const ROOM: usize = 32_000_000;

/// What `pipe` and then `report` are answered over one keeper, where `pipe` has the stream of so many sessions by draws
/// from a start.
pub fn told(case: &Case, answer: &mut Answer) -> Result<(), Fail> {
    let mut keeper = fresh(answer.alloc())?;
    told_over(case, &mut keeper, answer)
}

/// The same over this keeper.
fn told_over(case: &Case, keeper: &mut MemKeeper, answer: &mut Answer) -> Result<(), Fail> {
    let status = served(answer.alloc(), case, keeper)?;
    answer.number("status", u64::from(status))?;
    add_report(keeper, answer)
}

/// Serves the stream of a case, and tells the status.
fn served(alloc: Global, case: &Case, keeper: &mut MemKeeper) -> Result<u8, Fail> {
    let words = words_of(alloc, b"pipe")?;
    let stream = stream_of(alloc, case)?;
    let mut call = Call::new(words.as_slice(), stream.as_slice());
    call.room = ROOM;
    status_of(alloc, &call, keeper)
}

fn status_of(alloc: Global, call: &Call<'_>, keeper: &mut MemKeeper) -> Result<u8, Fail> {
    let told = call.make(alloc, keeper)?;
    Ok(told.status)
}

/// Adds what `report` is answered.
fn add_report(keeper: &mut MemKeeper, answer: &mut Answer) -> Result<(), Fail> {
    let told = call_words(answer.alloc(), keeper, b"report", &[])?;
    tell_report(&told, answer)
}

fn tell_report(told: &Told, answer: &mut Answer) -> Result<(), Fail> {
    answer.number("status 2", u64::from(told.status))?;
    answer.bytes("report", told.output.as_slice())
}

/// The stream of a case.
fn stream_of(alloc: Global, case: &Case) -> Result<List<u8>, Fail> {
    let sessions = number(case, "sessions")?;
    let start = number(case, "start")?;
    if sessions < 1 || sessions > 5_000 || start >= 1 << 31 {
        return Err(Fail::new("the generator does not take these numbers"));
    }
    Ok(made(alloc, sessions, start)?)
}

/// The number of a part that has to be there.
fn number(case: &Case, name: &str) -> Result<u32, Fail> {
    match case.number(name) {
        Some(number) => Ok(u32::try_from(number).unwrap_or(u32::MAX)),
        None => Err(Fail::new("a case of the generator lacks a number")),
    }
}
