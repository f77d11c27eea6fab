//! Calls of `serve` and `serve_pages` over doors and outputs in memory.
use crate::doors::door_of;
use crate::pages::{CasePages, PAGES};
use desk_base::{List, MemSink, NoMemory};
use desk_cases::Case;
use desk_links::MemDoor;
use desk_trials::words_of;
use fixdesk_run::serve;
use keeper_core::MemKeeper;
use session_machine::Desk;
use std::alloc::Global;
use std::test::Fail;
use web_run::serve_pages;

/// How many bytes an output has room for, where a case does not say.
const USUAL_ROOM: usize = 1_000;

/// What is called.
#[derive(Clone, Copy, Debug, PartialEq, Eq)]
pub enum Called {
    Serve,
    Pages,
}

/// What a call left: its status, the output and the door.
#[derive(Drop)]
pub struct Served {
    pub status: u8,
    pub out: MemSink,
    pub door: MemDoor,
}

/// Makes a call with these words over the door and the output of a case.
pub fn call(
    alloc: Global,
    called: Called,
    case: &Case,
    words: &[u8],
    keeper: &mut MemKeeper,
) -> Result<Served, Fail> {
    let words = words_of(alloc, words)?;
    call_with(alloc, called, case, words.as_slice(), keeper)
}

/// Makes the call with these words.
fn call_with(
    alloc: Global,
    called: Called,
    case: &Case,
    words: &[String],
    keeper: &mut MemKeeper,
) -> Result<Served, Fail> {
    let mut door = door_of(alloc, case)?;
    let mut out = output(alloc, case)?;
    let status = match called {
        Called::Serve => serve::<Desk, _, _, _>(alloc, words, keeper, &mut door, &mut out),
        Called::Pages => {
            let pages = CasePages { pages: PAGES };
            serve_pages::<Desk, _, _, _, _>(alloc, words, &pages, keeper, &mut door, &mut out)
        }
    };
    Ok(Served { status, out, door })
}

/// The output of a case, which has room for as many bytes as its part `room` says.
fn output(alloc: Global, case: &Case) -> Result<MemSink, NoMemory> {
    MemSink::new(alloc, USUAL_ROOM, room(case), List::new(alloc))
}

fn room(case: &Case) -> usize {
    match case.number("room") {
        Some(room) => usize::try_from(room).unwrap_or(USUAL_ROOM),
        None => USUAL_ROOM,
    }
}
