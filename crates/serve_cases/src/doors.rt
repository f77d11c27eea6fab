//! Doors in memory, and the links that wait at them.
ghost use Rattle.std.specs.Prelude.{◌≡◌, ◌≤◌, [], All, IfOk};
ghost use Rattle.desk_links.specs.Memory.{IsUncalled};

use desk_base::{Both, List, MemLink, MemSink, MemSource};
use desk_cases::Case;
use desk_links::MemDoor;
use std::alloc::Global;
use std::test::Fail;

/// How many bytes a link has room for.
const ROOM: usize = 10_000;

/// How many bytes a call of an end of a link moves at most, where a case does not say.
const USUAL_CUT: usize = 10_000;

/// The door of a case: each word of `links` is a part with the bytes of a link, and the door's calls in `door` fail.
pub fn door_of(alloc: Global, case: &Case) -> Result<MemDoor, Fail>
    ensures { IfOk result (λ door. door.live ≡ 0) }
{
    let links = links_of(alloc, case)?;
    let fails = List::from_vec(case.numbers(alloc, "door")?);
    Ok(MemDoor::new(alloc, links, fails)?)
}

/// The links that wait, in their order.
fn links_of(alloc: Global, case: &Case) -> Result<List<MemLink>, Fail>
    ensures { IfOk result (All IsUncalled) }
{
    let mut links = List::new(alloc);
    let names = case.text("links").unwrap_or("").split_whitespace();
    'names: for (place, name) in names.enumerate() {
        let number = (place as u64).saturating_add(1);
        links.push(link(alloc, case, name, number)?)?;
    }
    Ok(links)
}

/// The link with the bytes of a part, which is the one with this number, counted from 1.
fn link(alloc: Global, case: &Case, name: &str, number: u64) -> Result<MemLink, Fail>
    ensures { IfOk result IsUncalled }
{
    let source = source(alloc, case, name, number)?;
    let sink = sink(alloc, case, number)?;
    Ok(Both { source, sink })
}

/// What a link is read by. The pairs of numbers in `reads` say which read of which link fails.
fn source(alloc: Global, case: &Case, name: &str, number: u64) -> Result<MemSource, Fail>
    ensures { IfOk result (λ source. (source.schedule.calls ≡ 0) × (source.faults ≡ 0)) }
{
    let fails = calls(alloc, case, "reads", number)?;
    let bytes = List::from_vec(Vec::from_slice(alloc, case.bytes(name)?)?);
    Ok(MemSource::new(bytes, cut(case), fails))
}

/// What a link is written to. The pairs of numbers in `writes` say which write of which link fails.
fn sink(alloc: Global, case: &Case, number: u64) -> Result<MemSink, Fail>
    ensures { IfOk result (λ sink. (sink.schedule.calls ≡ 0) × (sink.faults ≡ 0) × (sink.written ≡ [])) }
{
    let fails = calls(alloc, case, "writes", number)?;
    Ok(MemSink::new(alloc, cut(case), ROOM, fails)?)
}

/// How many bytes a call of an end of a link moves at most.
fn cut(case: &Case) -> usize
    ensures { 1 ≤ result }
{
    match case.number("cut") {
        Some(cut) => usize::try_from(cut).unwrap_or(USUAL_CUT).max(1),
        None => USUAL_CUT,
    }
}

/// The calls of a link that fail, from pairs of a link's number and a call's.
fn calls(alloc: Global, case: &Case, name: &str, number: u64) -> Result<List<u64>, Fail> {
    let pairs = case.numbers(alloc, name)?;
    calls_of(alloc, pairs.as_slice(), number)
}

fn calls_of(alloc: Global, pairs: &[u64], number: u64) -> Result<List<u64>, Fail> {
    let mut calls = List::new(alloc);
    for pair in pairs.chunks_exact(2) {
        match pair {
            [link, call] if *link == number => calls.push(*call)?,
            _ => {}
        }
    }
    Ok(calls)
}
