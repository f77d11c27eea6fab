//! Streams over a front.
use crate::pages::PAGES;
use desk_base::{Both, List, MemLink, MemSink, MemSource};
use desk_cases::{Answer, Case};
use desk_trials::{Script, fresh};
use http_desk::{Front, serve_stream};
use keeper_core::MemKeeper;
use machine_core::Machine;
use session_machine::Desk;
use std::alloc::Global;
use std::test::Fail;

/// The most requests of a stream.
const LIMIT: u32 = 100;

/// How many bytes a sink has room for.
const ROOM: usize = 10_000;

/// How many bytes a call of an end of a link moves at most.
const CUT: usize = 65_536;

/// What the bytes of a case are answered over its front by an empty desk, and the tables that are left.
pub fn told(case: &Case, answer: &mut Answer) -> Result<(), Fail> {
    let mut keeper = fresh(answer.alloc())?;
    told_over(case, &mut keeper, answer)
}

fn told_over(case: &Case, keeper: &mut MemKeeper, answer: &mut Answer) -> Result<(), Fail> {
    add_stream(case, keeper, answer)?;
    Script::new(answer.alloc()).add_tables(case, keeper, answer)
}

/// Adds what the bytes are answered by a desk over a keeper.
fn add_stream(case: &Case, keeper: &mut MemKeeper, answer: &mut Answer) -> Result<(), Fail> {
    let mut link = link(answer.alloc(), case.bytes("bytes")?)?;
    let pages = PAGES;
    let front = match case.number("port") {
        Some(port) if port <= 65_535 => Front::guarded(port as u16, &pages),
        _ => Front::bare(),
    };
    if !is_served(answer.alloc(), &front, keeper, &mut link) {
        return Err(Fail::new("a desk did not begin"));
    }
    answer.bytes("wanted", link.sink.bytes())
}

/// Serves a link over a front, and tells whether a desk began over the keeper.
fn is_served(alloc: Global, front: &Front<'_>, keeper: &mut MemKeeper, link: &mut MemLink) -> bool {
    match Desk::start(alloc, keeper) {
        Ok(mut desk) => {
            let _end = serve_stream(alloc, front, &mut desk, keeper, link, LIMIT);
            drop(desk);
            true
        }
        Err(_) => false,
    }
}

/// A link over these bytes.
fn link(alloc: Global, bytes: &[u8]) -> Result<MemLink, Fail> {
    let bytes = List::from_vec(Vec::from_slice(alloc, bytes)?);
    let source = MemSource::new(bytes, CUT, List::new(alloc));
    let sink = MemSink::new(alloc, CUT, ROOM, List::new(alloc))?;
    Ok(Both { source, sink })
}
