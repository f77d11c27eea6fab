//! What sessions came to, kept so that nothing is decided twice.
ghost use Rattle.std.specs.Prelude.{◌≡◌, ◌+◌, ◌-◌, ◌≤◌, ◌^◌, ◌↔◌, ℕ, IfOk, IfSome, IsTrue, count_by, length, min};
ghost use Rattle.desk_base.specs.declared.limits.TheConstants.{MAX_ATTRIBUTES};
ghost use Rattle.desk_words.specs.Tables.{Published};
ghost use Rattle.machine_core.specs.Look.Report.{is_confirmed_cell, is_fixed_cell, is_uncovered_cell};
ghost use Rattle.machine_workplace.specs.Upshots.{AreCellsUpTo, AreTrue, IsNoteOf, IsTrueNote, IsUpshotOf};
ghost use Rattle.machine_workplace.specs.Upshots.{cells_in, cells_of_both};

use desk_base::{Duplicate, NoMemory, Shared, Text};
use desk_words::SessionRow;
use fix_engine::Verdict;
use fix_model::Cell;
use std::alloc::Global;
use std::collections::HashMap;

/// How many attributes came to their value in each way.
#[derive(Clone, Copy, Debug, PartialEq, Eq)]
pub struct Cells {
    pub confirmed: u64,
    pub fixed: u64,
    pub uncovered: u64,
}

impl Cells {
    /// None yet.
    pub fn none() -> Cells
        ensures { result ≡ record { confirmed = 0; fixed = 0; uncovered = 0 } }
    {
        Cells {
            confirmed: 0,
            fixed: 0,
            uncovered: 0,
        }
    }

    /// Those of a session.
    pub fn of(cells: &[Cell]) -> Cells
        requires { length cells.now ≤ MAX_ATTRIBUTES }
        ensures cells { result ≡ cells_in cells.now }
        ensures few { AreCellsUpTo MAX_ATTRIBUTES result }
    {
        Cells {
            confirmed: confirmed_count(cells) as u64,
            fixed: fixed_count(cells) as u64,
            uncovered: uncovered_count(cells) as u64,
        }
    }

    /// These and those of one more session.
    pub fn and(self, other: Cells) -> Cells
        requires few { AreCellsUpTo (2 ^ 63) self }
        requires other { AreCellsUpTo MAX_ATTRIBUTES other }
        ensures more { result ≡ cells_of_both self other }
        ensures most { (most : ℕ) → AreCellsUpTo most self → AreCellsUpTo (most + MAX_ATTRIBUTES) result }
    {
        Cells {
            confirmed: self.confirmed + other.confirmed,
            fixed: self.fixed + other.fixed,
            uncovered: self.uncovered + other.uncovered,
        }
    }
}

/// How many cells are confirmed.
fn confirmed_count(cells: &[Cell]) -> usize
    ensures count { result ≡ count_by is_confirmed_cell cells.now }
    ensures few { result ≤ length cells.now }
{
    cells.iter().filter(|cell| is_confirmed(cell)).count()
}

/// How many cells a rule fixed.
fn fixed_count(cells: &[Cell]) -> usize
    ensures count { result ≡ count_by is_fixed_cell cells.now }
    ensures few { result ≤ length cells.now }
{
    cells.iter().filter(|cell| is_fixed(cell)).count()
}

/// How many cells are uncovered.
fn uncovered_count(cells: &[Cell]) -> usize
    ensures count { result ≡ count_by is_uncovered_cell cells.now }
    ensures few { result ≤ length cells.now }
{
    cells.iter().filter(|cell| is_uncovered(cell)).count()
}

fn is_confirmed(cell: &Cell) -> bool
    ensures { result ≡ is_confirmed_cell cell.now }
{
    matches!(cell, Cell::Confirmed)
}

fn is_fixed(cell: &Cell) -> bool
    ensures { result ≡ is_fixed_cell cell.now }
{
    matches!(cell, Cell::Fixed(_))
}

fn is_uncovered(cell: &Cell) -> bool
    ensures { result ≡ is_uncovered_cell cell.now }
{
    matches!(cell, Cell::Uncovered)
}

/// What a session came to: the verdict, and its attributes by the way in which they came to their value.
#[derive(Clone, Copy, Debug, PartialEq, Eq)]
pub struct Upshot {
    pub verdict: Verdict,
    pub cells: Cells,
}

/// Where a session stands: the place of its clerk, and its own among the clerk's sessions, both counted from 0.
#[derive(Clone, Copy, Debug, PartialEq, Eq)]
pub struct SessionAt {
    pub clerk: u32,
    pub place: u32,
}

impl SessionAt {
    /// The place so many sessions after this one, or the last place that there can be.
    pub fn after(self, count: u32) -> SessionAt
        ensures clerk { result.clerk ≡ self.clerk }
        ensures place { result.place ≡ min (self.place + count) (2 ^ 32 - 1) }
    {
        SessionAt {
            clerk: self.clerk,
            place: self.place.saturating_add(count),
        }
    }

    fn key(self) -> u64 {
        u64::from(self.clerk) << 32 | u64::from(self.place)
    }
}

/// What a session came to when it was decided, with what was decided on. It shares texts and flags with the session.
#[derive(Debug, Drop)]
pub struct Noted {
    edition: u32,
    typed: Shared<Text>,
    confirmed: Shared<bool>,
    upshot: Upshot,
}

impl Noted {
    /// A note of what a session came to.
    fn of(session: &SessionRow, upshot: Upshot) -> Result<Noted, NoMemory>
        ensures note { IfOk result (IsNoteOf session.now) }
        ensures upshot { IfOk result (λ noted. noted.upshot ≡ upshot) }
    {
        Ok(Noted {
            edition: session.edition,
            typed: session.typed.copy()?,
            confirmed: session.confirmed.copy()?,
            upshot,
        })
    }

    /// Whether nothing was changed in a session since that the rules read.
    fn is_of(&self, session: &SessionRow) -> bool
        ensures { IsTrue result ↔ IsNoteOf session.now self.now }
    {
        if self.edition != session.edition {
            return false;
        }
        if self.confirmed.as_slice() != session.confirmed.as_slice() {
            return false;
        }
        are_equal(self.typed.as_slice(), session.typed.as_slice())
    }
}

/// Whether these are the same texts.
fn are_equal(texts: &[Text], others: &[Text]) -> bool
    ensures { IsTrue result ↔ (texts.now ≡ others.now) }
{
    if texts.len() != others.len() {
        return false;
    }
    'texts: for (place, text) in texts.iter().enumerate() {
        if text.as_str() != others[place].as_str() {
            return false;
        }
    }
    true
}

/// What sessions came to. Each is kept with what was decided on, so that it is taken for no other session and not for
/// one that was changed since. Where there is no memory for one, it is decided again.
#[derive(Debug)]
pub struct Upshots {
    noted: HashMap<u64, Noted>,
}

/// One call lets them go, whatever owned them (`docs/gate.md`).
impl Drop for Upshots {
    fn drop(self) {
        let Upshots { noted } = self;
        drop(noted);
    }
}

impl Upshots {
    /// Nothing is known yet.
    pub fn new(alloc: Global) -> Upshots
        ensures { (published : Published) → AreTrue published result }
    {
        Upshots {
            noted: HashMap::new(alloc),
        }
    }

    /// What the session at this place came to, if that is known.
    pub fn known(&self, at: SessionAt, session: &SessionRow) -> Option<Upshot>
        ensures { (published : Published) → AreTrue published self.now
            → IfSome result (IsUpshotOf published session.now) }
    {
        let noted = self.noted.get(&at.key())?;
        if noted.is_of(session) {
            Some(noted.upshot)
        } else {
            None
        }
    }

    /// Keeps what the session at this place came to, where there is memory.
    pub fn note(&mut self, at: SessionAt, session: &SessionRow, upshot: Upshot)
        ensures { (published : Published) → AreTrue published self.old → IsUpshotOf published session.now upshot
            → AreTrue published self.new }
    {
        if let Ok(noted) = Noted::of(session, upshot) {
            self.put(at.key(), noted);
        }
    }

    /// Puts a note at a key, where there is memory.
    fn put(&mut self, key: u64, noted: Noted)
        ensures { (published : Published) → AreTrue published self.old → IsTrueNote published noted
            → AreTrue published self.new }
    {
        match self.noted.insert(key, noted) {
            Ok(_) => {}
            Err(_) => {}
        }
    }
}
