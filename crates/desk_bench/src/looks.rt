//! Looks into a book, spread over its rules and over the rows of its master.
ghost use Rattle.std.specs.Prelude.{◌<◌};
ghost use Rattle.fix_model.specs.States.{Fits};

use desk_base::{List, Steps, Text};
use fix_model::{Book, State, enabled};
use std::alloc::Global;
use std::test::Fail;

/// How many looks are made for a record.
pub const LOOKS: u64 = 100;

/// Looks so many records up, and tells how many of the looks found a row.
pub fn rows_found<B: Book<()>>(
    alloc: Global,
    book: &B,
    rows: u32,
    records: u32,
) -> Result<u64, Fail> {
    let mut found = 0_u64;
    for record in 0..records {
        // The rows of one record and the next lie far apart.
        let row = u64::from(record) * 7_919 % u64::from(rows.max(1));
        let typed = texts_of(alloc, row)?;
        if typed.len() == 8 && book.width() == 8 {
            let state = State::new(alloc, typed, &[true; 8])?;
            found = found.saturating_add(found_for(book, &state));
        }
    }
    Ok(found)
}

/// The texts of a row.
fn texts_of(alloc: Global, row: u64) -> Result<List<Text>, Fail> {
    let mut texts = List::new(alloc);
    for column in ["a", "b", "c", "d", "e", "f", "g", "h"] {
        let text = format!(in alloc; "{column}{row}")?;
        texts.push(Text::new(alloc, text.as_bytes())?)?;
    }
    Ok(texts)
}

/// Makes 100 looks for a record, over the rules in turn, and tells how many found a row.
fn found_for<B: Book<()>>(book: &B, state: &State) -> u64
    requires { Fits (B.kit book.now) state.now }
{
    let mut steps = Steps::new(());
    let mut found = 0_u64;
    let rules = book.rules();
    for turn in 0..LOOKS as usize {
        if rules.is_empty() {
            return found;
        }
        let rule = turn % rules.len();
        if enabled::<(), B>(book, state, &rules[rule])
            && book.find(rule as u16, state, &mut steps).is_some()
        {
            found = found.saturating_add(1);
        }
    }
    found
}
