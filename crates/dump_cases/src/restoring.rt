//! A call of `restore_desk` as a case states it, and what is asked of the desk then.
use crate::desks::desk_of;
use desk_base::{Both, List, MemLink, MemSink, MemSource};
use desk_cases::{Answer, Case};
use desk_trials::{keeper_of, serve, shown, words_of};
use keeper_core::MemKeeper;
use restore_run::{RestoreEnd, restore_desk};
use std::alloc::Global;
use std::test::Fail;

/// How many bytes the output has room for, where a case does not say.
const USUAL_ROOM: usize = 1_000;

/// What a dump is answered, and what the keeper has in the end.
pub fn told(case: &Case, answer: &mut Answer) -> Result<(), Fail> {
    let mut keeper = keeper_of(answer.alloc(), case)?;
    told_over(case, &mut keeper, answer)
}

/// The same over this keeper.
fn told_over(case: &Case, keeper: &mut MemKeeper, answer: &mut Answer) -> Result<(), Fail> {
    let mut link = link_of(answer.alloc(), case)?;
    let end = restored(answer.alloc(), case, keeper, &mut link)?;
    tell_end(end, link.sink.bytes(), answer)?;
    answer.text(
        "desk",
        desk_of(answer.alloc(), case.bytes("dump")?, keeper)?,
    )?;
    add_asked(case, keeper, answer)
}

/// Makes the call over a keeper and a link.
fn restored(
    alloc: Global,
    case: &Case,
    keeper: &mut MemKeeper,
    link: &mut MemLink,
) -> Result<RestoreEnd, Fail> {
    let words = words_of(alloc, case.part("words").unwrap_or(&[]))?;
    Ok(restore_desk(alloc, words.as_slice(), keeper, link))
}

/// Tells the status, the line that is refused, and what was written.
fn tell_end(end: RestoreEnd, said: &[u8], answer: &mut Answer) -> Result<(), Fail> {
    answer.number("status", u64::from(end.code()))?;
    if let RestoreEnd::Refused(line) = end {
        answer.number("line", line)?;
    }
    if said.is_empty() {
        return Ok(());
    }
    answer.bytes("said", said)
}

/// Adds what a case asks of the desk in the end: what its tables show, what a stream is answered, and the status of the
/// same dump again.
fn add_asked(case: &Case, keeper: &mut MemKeeper, answer: &mut Answer) -> Result<(), Fail> {
    if case.part("rows").is_some() {
        let rows = shown(answer.alloc(), keeper)?;
        answer.text("rows", rows.as_str())?;
    }
    if let Some(sent) = case.part("sent") {
        let told = serve(answer.alloc(), keeper, sent)?;
        answer.bytes("answered", told.output.as_slice())?;
    }
    if case.part("again").is_some() {
        let mut link = link_of(answer.alloc(), case)?;
        let end = restored(answer.alloc(), case, keeper, &mut link)?;
        answer.number("again", u64::from(end.code()))?;
    }
    Ok(())
}

/// The link of a case, with the dump to be read.
fn link_of(alloc: Global, case: &Case) -> Result<MemLink, Fail> {
    let source = source_of(alloc, case)?;
    let sink = sink_of(alloc, case)?;
    Ok(Both { source, sink })
}

fn source_of(alloc: Global, case: &Case) -> Result<MemSource, Fail> {
    let fails = List::from_vec(case.numbers(alloc, "reads")?);
    let dump = List::from_vec(Vec::from_slice(alloc, case.bytes("dump")?)?);
    Ok(MemSource::new(dump, case.cut().max(1), fails))
}

fn sink_of(alloc: Global, case: &Case) -> Result<MemSink, Fail> {
    let fails = List::from_vec(case.numbers(alloc, "writes")?);
    let room = match case.number("room") {
        Some(room) => usize::try_from(room).unwrap_or(usize::MAX),
        None => USUAL_ROOM,
    };
    Ok(MemSink::new(alloc, case.cut().max(1), room, fails)?)
}
