//! Looks for a rule over all three books.
ghost use Rattle.fix_model.specs.States.{Fits};
ghost use Rattle.fix_model.specs.Valid.{IsValid};

use case_json::case_of;
use desk_base::{Duplicate, Steps};
use desk_cases::{Answer, Case};
use fix_model::{Book, Hit, Kit, ListBook, State, enabled};
use master_index::{MapBook, SortedBook};
use std::alloc::{AllocError, Global};
use std::test::Fail;

/// What a look for the first rule finds, if the rule is enabled, and how many comparisons it takes; and whether some
/// row agrees at the rule's covered keys.
#[derive(Clone, Copy)]
pub struct Look {
    pub found: Option<Hit>,
    pub compares: u64,
    pub agrees: bool,
}

impl Look {
    /// Whether another look tells the same rows.
    fn has_rows_of(self, other: Look) -> bool {
        self.found == other.found && self.agrees == other.agrees
    }
}

/// What a look for the first rule finds, and whether some row agrees at its covered keys. The plain book and both
/// indexes have to tell the same.
pub fn told(case: &Case, answer: &mut Answer) -> Result<(), Fail> {
    let look = looked(answer.alloc(), case.bytes("input")?)?;
    add_found(look.found, answer)?;
    answer.truth("agrees", look.agrees)
}

fn looked(alloc: Global, input: &[u8]) -> Result<Look, Fail> {
    let record = case_of(alloc, input)?;
    let look = over_all(alloc, &record.kit, &record.state);
    drop(record);
    look
}

/// What the three books tell, which has to be the same.
fn over_all(alloc: Global, kit: &Kit, state: &State) -> Result<Look, Fail>
    requires valid { IsValid kit.now }
    requires fits { Fits kit.now state.now }
{
    let plain = over_list(kit, state)?;
    let map = over_map(alloc, kit, state)?;
    let sorted = over_sorted(alloc, kit, state)?;
    if plain.has_rows_of(map) && plain.has_rows_of(sorted) {
        return Ok(plain);
    }
    Err(Fail::new("the books tell other rows"))
}

fn over_list(kit: &Kit, state: &State) -> Result<Look, Fail>
    requires valid { IsValid kit.now }
    requires fits { Fits kit.now state.now }
{
    let book = ListBook::new(kit.copy()?);
    let look = look_into(&book, state);
    drop(book);
    look
}

fn over_map(alloc: Global, kit: &Kit, state: &State) -> Result<Look, Fail>
    requires valid { IsValid kit.now }
    requires fits { Fits kit.now state.now }
{
    let book = MapBook::build(alloc, kit.copy()?)?;
    let look = look_into(&book, state);
    drop(book);
    look
}

/// What a sorted index of this kit tells.
pub fn over_sorted(alloc: Global, kit: &Kit, state: &State) -> Result<Look, Fail>
    requires valid { IsValid kit.now }
    requires fits { Fits kit.now state.now }
{
    let book = SortedBook::build(alloc, kit.copy()?)?;
    let look = look_into(&book, state);
    drop(book);
    look
}

fn look_into<B: Book<()>>(book: &B, state: &State) -> Result<Look, Fail>
    requires { Fits (B.kit book.now) state.now }
{
    if book.rules().is_empty() {
        return Err(Fail::new("a case of looks has no rule"));
    }
    let agrees = book.agrees(0, state, &mut Steps::new(()));
    let mut counts = Steps::new(());
    let found = if enabled::<(), B>(book, state, &book.rules()[0]) {
        book.find(0, state, &mut counts)
    } else {
        None
    };
    let compares = counts.compares();
    Ok(Look {
        found,
        compares,
        agrees,
    })
}

/// Adds the first row and the other one, counted from 1.
pub fn add_found(found: Option<Hit>, answer: &mut Answer) -> Result<(), Fail> {
    let mut text = String::new(answer.alloc());
    tell(&mut text, found)?;
    answer.text("found", text.as_str())
}

fn tell(text: &mut String, found: Option<Hit>) -> Result<(), AllocError> {
    let Some(hit) = found else {
        return text.push_str("none");
    };
    let first = u64::from(hit.first).saturating_add(1);
    write!(text, "row {first}")?;
    if let Some(other) = hit.other {
        let other = u64::from(other).saturating_add(1);
        write!(text, ", and row {other} gives another text")?;
    }
    Ok(())
}
