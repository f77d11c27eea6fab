//! A clerk who enters sessions on a desk with one edition, without a store.
use crate::desk::{clock, tell};
use crate::sizes::Sizes;
use crate::texts::{SCHEMA, rules_text, sheet_text};
use crate::writes::{publish, write};
use desk_base::{List, NoMemory, Str};
use desk_trials::KeptDesk;
use desk_words::{ClerkWork, Proposal, StewardWork};
use std::alloc::Global;
use std::test::Fail;
use std::time::CpuClock;

/// How many sessions are timed, the last ones.
const TIMED: u32 = 50;

/// How many requests are made before the first session.
const PUBLISHED: u64 = 5;

/// Enters so many sessions, and tells how much processor time the last fifty took, and those before them.
pub fn enter_sessions<R: Print + Eprint + CpuClock>(
    rt: &R,
    alloc: Global,
    sizes: Sizes,
) -> Result<(), Fail> {
    let mut desk = KeptDesk::fresh(alloc)?;
    let entered = publish_and_enter(rt, alloc, &mut desk, sizes);
    drop(desk);
    entered
}

/// Publishes the edition, and enters all sessions but the last fifty, and then those, or all where there are fewer. The
/// desk is lent, since a function with many ways out that lets it go takes minutes to prove.
fn publish_and_enter<R: Print + Eprint + CpuClock>(
    rt: &R,
    alloc: Global,
    desk: &mut KeptDesk,
    sizes: Sizes,
) -> Result<(), Fail> {
    publish_edition(alloc, desk, sizes)?;
    let first = sizes.sessions.saturating_sub(TIMED);
    let start = clock(rt)?;
    enter_all(alloc, desk, sizes.rows, 0, first)?;
    tell(rt, "the sessions before the last 50", start)?;
    let start = clock(rt)?;
    enter_all(alloc, desk, sizes.rows, first, sizes.sessions)?;
    tell(rt, "the last 50 sessions", start)?;
    tell_count(rt, desk.turn())
}

/// Tells how many sessions were entered, by the number of requests that were accepted.
fn tell_count<R: Print>(rt: &R, turn: u64) -> Result<(), Fail> {
    let count = turn.saturating_sub(PUBLISHED);
    Ok(println!(rt; "sessions: {count} entered")?)
}

/// Makes the clerk, and publishes the edition.
fn publish_edition(alloc: Global, desk: &mut KeptDesk, sizes: Sizes) -> Result<(), Fail> {
    let sheet = sheet_text(alloc, sizes.rows)?;
    let rules = rules_text(alloc, sizes.rules)?;
    publish_all(alloc, desk, sheet.as_bytes(), rules.as_bytes())
}

fn publish_all(alloc: Global, desk: &mut KeptDesk, sheet: &[u8], rules: &[u8]) -> Result<(), Fail> {
    publish(desk, 1, clerk(alloc)?)?;
    publish(desk, 2, schema(alloc)?)?;
    publish(desk, 3, master(alloc, sheet)?)?;
    publish(desk, 4, rulebook(alloc, rules)?)?;
    publish(desk, 5, edition(alloc)?)
}

fn clerk(alloc: Global) -> Result<StewardWork, NoMemory> {
    Ok(StewardWork::AddClerk {
        name: Str::new(alloc, "amy")?,
    })
}

fn schema(alloc: Global) -> Result<StewardWork, NoMemory> {
    Ok(StewardWork::Publish(Proposal::Schema {
        body: list_of(alloc, SCHEMA)?,
    }))
}

fn master(alloc: Global, sheet: &[u8]) -> Result<StewardWork, NoMemory> {
    Ok(StewardWork::Publish(Proposal::Master {
        name: Str::new(alloc, "m")?,
        body: list_of(alloc, sheet)?,
    }))
}

fn rulebook(alloc: Global, rules: &[u8]) -> Result<StewardWork, NoMemory> {
    Ok(StewardWork::Publish(Proposal::Rulebook {
        name: Str::new(alloc, "rules")?,
        schema: Str::new(alloc, "wide")?,
        version: 1,
        body: list_of(alloc, rules)?,
    }))
}

fn edition(alloc: Global) -> Result<StewardWork, NoMemory> {
    let name = Str::new(alloc, "desk")?;
    let rules = Str::new(alloc, "rules")?;
    let masters = masters(alloc)?;
    Ok(StewardWork::Publish(Proposal::Edition {
        name,
        rulebook: (rules, 1),
        masters,
        folded: List::new(alloc),
    }))
}

fn masters(alloc: Global) -> Result<List<(Str, u32)>, NoMemory> {
    let mut masters = List::new(alloc);
    masters.push((Str::new(alloc, "m")?, 1))?;
    Ok(masters)
}

fn list_of(alloc: Global, bytes: &[u8]) -> Result<List<u8>, NoMemory> {
    Ok(List::from_vec(Vec::from_slice(alloc, bytes)?))
}

/// Enters the sessions after the first ones, up to so many.
fn enter_all(
    alloc: Global,
    desk: &mut KeptDesk,
    rows: u32,
    first: u32,
    count: u32,
) -> Result<(), Fail> {
    for place in first..count {
        // The rows of one session and the next lie far apart.
        let row = u64::from(place) * 7_919 % u64::from(rows.max(1));
        let clerk = Str::new(alloc, "amy")?;
        write(desk, clerk, u64::from(place) + 1, enter(alloc, row)?)?;
    }
    Ok(())
}

/// An enter of a session whose first attribute is that of a row, and confirmed.
fn enter(alloc: Global, row: u64) -> Result<ClerkWork, NoMemory> {
    let edition = Str::new(alloc, "desk")?;
    let confirmed = confirmed(alloc)?;
    let cells = cells(alloc, row)?;
    Ok(ClerkWork::Enter {
        edition,
        cells,
        confirmed,
    })
}

fn confirmed(alloc: Global) -> Result<List<Str>, NoMemory> {
    let mut confirmed = List::new(alloc);
    confirmed.push(Str::new(alloc, "a0")?)?;
    Ok(confirmed)
}

fn cells(alloc: Global, row: u64) -> Result<List<(Str, Str)>, NoMemory> {
    let mut cells = List::new(alloc);
    cells.push(cell(alloc, row)?)?;
    Ok(cells)
}

fn cell(alloc: Global, row: u64) -> Result<(Str, Str), NoMemory> {
    let text = format!(in alloc; "a{row}")?;
    let typed = Str::new(alloc, text.as_str())?;
    Ok((Str::new(alloc, "a0")?, typed))
}
