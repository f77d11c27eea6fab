//! The rows of a master that give a certain fix.
ghost use Rattle.std.specs.Prelude.{◌≡◌, ◌≢◌, ◌*◌, ◌+◌, ◌<◌, ◌≤◌, ◌↔◌, [], length, All, IfOk, IsTrue};
ghost use Rattle.fix_model.specs.Regions.{AreAttributesOf, IsRowVerdict};
ghost use Rattle.fix_engine.specs.WorkSeen.{IsRoomFor, KeepsSize};
ghost use Rattle.region_derive.specs.Derived.{AreDerived, ArePairs, texts_in};

use crate::seen::Seen;
use desk_base::{Grid, List, NoMemory, Steps, Text};
use fix_engine::{Verdict, Work, judge};
use fix_model::{Book, RowVerdict, row_state};
use std::alloc::Global;

/// The rows of a grid, counted from 0 and in their order, for which a certain fix follows where exactly these
/// attributes are confirmed to the texts of the row in these columns: of rows with the same texts the first one, and
/// none where one of these texts is blank. Each row comes with its texts. The master's rows are gone through once,
/// and each rule is looked up at most once for each row.
pub fn derive<L, B: Book<L>>(
    alloc: Global,
    work: &mut Work,
    book: &B,
    grid: &Grid,
    attributes: &[u16],
    columns: &[u16],
    counts: &mut Steps<L>,
) -> Result<List<(u32, List<Text>)>, NoMemory>
    requires pairs { ArePairs (B.kit book.now) grid.now attributes.now columns.now }
    requires room { IsRoomFor work.old (B.kit book.now) }
    ensures derived { IfOk result (AreDerived (B.kit book.now) grid.now attributes.now columns.now) }
    ensures looks { counts.new.looks
        ≤ counts.old.looks + length (B.kit book.now).rules * length grid.now.rows }
    ensures size { KeepsSize work.old work.new }
{
    let mut found = List::new(alloc);
    let mut seen = Seen::new(alloc);
    'rows: for row in 0..grid.rows() {
        let texts = texts_of(alloc, grid, columns, row)?;
        let is_new = seen.keep(alloc, texts.as_slice())?;
        if is_new && promises(alloc, work, book, attributes, texts.as_slice(), counts)? {
            found.push((row, texts))?;
        }
    }
    Ok(found)
}

/// The texts of a row in these columns.
fn texts_of(alloc: Global, grid: &Grid, columns: &[u16], row: u32) -> Result<List<Text>, NoMemory>
    requires row { row < length grid.now.rows }
    requires columns { All (λ column. column < grid.now.columns) columns.now }
    ensures { IfOk result (λ texts. texts ≡ texts_in grid.now columns.now row) }
{
    let mut texts = List::new(alloc);
    'columns: for column in columns {
        texts.push(Text::of(alloc, grid.cell(row, *column))?)?;
    }
    Ok(texts)
}

/// Whether none of these texts is blank, and a certain fix follows where exactly these attributes are confirmed to
/// them.
fn promises<L, B: Book<L>>(
    alloc: Global,
    work: &mut Work,
    book: &B,
    attributes: &[u16],
    texts: &[Text],
    counts: &mut Steps<L>,
) -> Result<bool, NoMemory>
    requires texts { length texts.now ≡ length attributes.now }
    requires room { IsRoomFor work.old (B.kit book.now) }
    ensures promises { IfOk result (λ promises. IsTrue promises ↔ (All (λ text. text ≢ []) texts.now
        × IsRowVerdict (B.kit book.now) attributes.now texts.now RowVerdict.Certain)) }
    ensures looks { counts.new.looks ≤ counts.old.looks + length (B.kit book.now).rules }
    ensures size { KeepsSize work.old work.new }
{
    if !is_filled(texts) {
        return Ok(false);
    }
    let mut state = row_state(alloc, book.width(), attributes, texts)?;
    match judge(work, book, &mut state, counts) {
        Verdict::Fix { certain, .. } => Ok(certain),
        Verdict::Conflict => Ok(false),
    }
}

/// Whether none of the texts is blank.
fn is_filled(texts: &[Text]) -> bool
    ensures { IsTrue result ↔ All (λ text. text ≢ []) texts.now }
{
    texts.iter().all(|text| !text.is_blank())
}
