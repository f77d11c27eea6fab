//! Times the work of the desk that grows with rules and with master rows, and the sessions of a clerk.
//!
//! The words are how many rules, master rows, records and sessions, as in `desk_bench 48 20000 1000 5000`; for each
//! record 100 looks are made. What was done is told on standard output, and how much processor time each part took on
//! standard error.
#![tactic(auto)]

ghost use Rattle.fix_model.specs.Valid.{IsValid};

mod desk;
mod looks;
mod sessions;
mod sizes;
mod texts;
mod writes;

use crate::desk::{clock, kit_of, paired_kit, tell};
use crate::looks::{LOOKS, rows_found};
use crate::sessions::enter_sessions;
use crate::sizes::Sizes;
use desk_base::Duplicate;
use fix_model::{Book, Kit, ListBook};
use master_index::{MapBook, SortedBook};
use rule_contradictions::contradictions;
use std::alloc::Global;
use std::env;
use std::test::Fail;
use std::time::CpuClock;

/// How many records are looked up in the index for each in the plain book, which goes through all rows.
const PLAIN_SHARE: u32 = 1_000;

fn main(rt: HostRuntime) -> Result<(), Fail> {
    let words = env::args(&rt)?.skip(1).collect::<Vec<_>>(rt.alloc())?;
    match Sizes::of_words(&words) {
        Some(sizes) => measure(&rt, rt.alloc(), sizes),
        None => Err(Fail::new("usage: desk_bench RULES ROWS RECORDS SESSIONS")),
    }
}

/// Makes the kit, looks into the three books over it, and enters the sessions.
fn measure<R: Print + Eprint + CpuClock>(rt: &R, alloc: Global, sizes: Sizes) -> Result<(), Fail> {
    let kit = kit_of(rt, alloc, sizes)?;
    let looked = Looking { rt, alloc, sizes }.look_into_all(&kit);
    drop(kit);
    looked?;
    contradict(rt, alloc, sizes.rows)?;
    enter_sessions(rt, alloc, sizes)
}

/// Lists the contradictions of a rule over rows that contradict each other in pairs, once the index is built.
fn contradict<R: Print + Eprint + CpuClock>(rt: &R, alloc: Global, rows: u32) -> Result<(), Fail> {
    let book = sorted_of(rt, alloc, paired_kit(rt, alloc, rows)?)?;
    let listed = contradictions_of(rt, alloc, &book, rows);
    drop(book);
    listed
}

/// Lists the contradictions of a book's first rule, and tells how many there are.
fn contradictions_of<R: Print + Eprint + CpuClock>(
    rt: &R,
    alloc: Global,
    book: &SortedBook,
    rows: u32,
) -> Result<(), Fail> {
    if Book::<()>::rules(book).is_empty() {
        return Err(Fail::new("the kit has no rule"));
    }
    let start = clock(rt)?;
    let found = contradictions(alloc, book, 0)?;
    tell(rt, "listing the contradictions", start)?;
    let count = found.len();
    Ok(println!(rt; "contradictions: {count} among {rows} rows")?)
}

/// What looks into books: where it tells, what it allocates by, and how many looks are made.
#[derive(Drop)]
struct Looking<'r, R> {
    rt: &'r R,
    alloc: Global,
    sizes: Sizes,
}

impl<R: Print + Eprint + CpuClock> Looking<'_, R> {
    /// Looks into the three books over a kit.
    fn look_into_all(&self, kit: &Kit) -> Result<(), Fail>
        requires { IsValid kit.now }
    {
        self.look_into_plain(kit)?;
        self.look_into_map(kit)?;
        self.look_into_sorted(kit)
    }

    /// Looks into the plain book.
    fn look_into_plain(&self, kit: &Kit) -> Result<(), Fail>
        requires { IsValid kit.now }
    {
        let book = ListBook::new(kit.copy()?);
        let looked = self.look_up("plain", &book, self.sizes.records / PLAIN_SHARE);
        drop(book);
        looked
    }

    /// Looks into the book over maps.
    fn look_into_map(&self, kit: &Kit) -> Result<(), Fail>
        requires { IsValid kit.now }
    {
        let book = map_of(self.rt, self.alloc, kit.copy()?)?;
        let looked = self.look_up("map", &book, self.sizes.records);
        drop(book);
        looked
    }

    /// Looks into the book over a sorted index.
    fn look_into_sorted(&self, kit: &Kit) -> Result<(), Fail>
        requires { IsValid kit.now }
    {
        let book = sorted_of(self.rt, self.alloc, kit.copy()?)?;
        let looked = self.look_up("sorted", &book, self.sizes.records);
        drop(book);
        looked
    }

    /// Looks so many records up, and tells how many looks found a row.
    fn look_up<B: Book<()>>(&self, name: &str, book: &B, records: u32) -> Result<(), Fail> {
        let start = clock(self.rt)?;
        let found = rows_found(self.alloc, book, self.sizes.rows, records)?;
        tell(self.rt, name, start)?;
        let looks = u64::from(records) * LOOKS;
        Ok(println!(self.rt; "{name}: {found} of {looks} looks found a row")?)
    }
}

/// The book over maps of the kit's masters.
fn map_of<R: Eprint + CpuClock>(rt: &R, alloc: Global, kit: Kit) -> Result<MapBook, Fail>
    requires { IsValid kit }
{
    let start = clock(rt)?;
    let book = MapBook::build(alloc, kit)?;
    tell(rt, "building the maps", start)?;
    Ok(book)
}

/// The book over a sorted index of the kit's masters.
fn sorted_of<R: Eprint + CpuClock>(rt: &R, alloc: Global, kit: Kit) -> Result<SortedBook, Fail>
    requires { IsValid kit }
{
    let start = clock(rt)?;
    let book = SortedBook::build(alloc, kit)?;
    tell(rt, "building the sorted index", start)?;
    Ok(book)
}
