//! Which rows of the regions are offered for a record.
ghost use Rattle.std.specs.Prelude.{◌≡◌, ◌+◌, ◌*◌, ◌-◌, ◌^◌, ◌<◌, ◌≤◌, ◌↔◌, [], ℕ, length, map, All, AllPairs};
ghost use Rattle.std.specs.Prelude.{Contains, IfOk, OnOk, IsTrue};
ghost use Rattle.fix_model.specs.Regions.{IsRegionOf};
ghost use Rattle.fix_model.specs.States.{Fits, value_at};
ghost use Rattle.fix_engine.specs.WorkSeen.{IsRoomFor, KeepsSize};
ghost use Rattle.region_suggest.specs.Finding.{IsMatchWithin};
ghost use Rattle.region_suggest.specs.Offers.{HoldsConfirmed, IsCertain, IsOfferBefore, IsMatch, IsPlace};
ghost use Rattle.region_suggest.specs.Offers.{ListsExactly, region_at};
ghost use Rattle.region_suggest.specs.Verdicts.{row_at, row_count};

use crate::checking::verdict_of;
use desk_base::{List, NoMemory, Steps, Text};
use fix_engine::Work;
use fix_model::{Book, Cell, Region, RowVerdict, State, row_state, value};
use std::alloc::Global;

/// The region rows that have the values of the state at all attributes of a region that holds every confirmed
/// one, each as its region and its row, both counted from 1.
pub(crate) fn matching_rows<L, B: Book<L>>(
    alloc: Global,
    book: &B,
    state: &State,
    regions: &[Region],
) -> Result<List<(u32, u32)>, NoMemory>
    requires fits { Fits (B.kit book.now) state.now }
    requires regions { All (IsRegionOf (B.kit book.now)) regions.now }
    requires few_regions { length regions.now < 2 ^ 32 }
    requires few_rows { All (λ region. length region.rows < 2 ^ 32) regions.now }
    ensures matches { IfOk result (ListsExactly (IsMatch (B.kit book.now) state.now regions.now)) }
    ensures few { IfOk result (λ found. length found ≤ row_count regions.now) }
{
    let mut found = List::new(alloc);
    'regions: for place in 0..regions.len() as u32 {
        add_rows::<L, B>(&mut found, book, state, regions, place)?;
    }
    Ok(found)
}

/// Adds the rows of one region, after those of the regions before it.
fn add_rows<L, B: Book<L>>(
    found: &mut List<(u32, u32)>,
    book: &B,
    state: &State,
    regions: &[Region],
    place: u32,
) -> Result<(), NoMemory>
    requires fits { Fits (B.kit book.now) state.now }
    requires regions { All (IsRegionOf (B.kit book.now)) regions.now }
    requires place { place < length regions.now }
    requires few_regions { length regions.now < 2 ^ 32 }
    requires few_rows { length (region_at regions.now place).rows < 2 ^ 32 }
    requires before { ListsExactly (IsMatchWithin (B.kit book.now) state.now regions.now place 0) found.old }
    ensures following { OnOk result
        (ListsExactly (IsMatchWithin (B.kit book.now) state.now regions.now (place + 1) 0) found.new) }
    ensures few { OnOk result (length found.new ≤ length found.old + length (region_at regions.now place).rows) }
{
    let region = region_at(regions, place as usize);
    let attributes = region.attrs.as_slice();
    if !holds_confirmed::<L, B>(book, attributes, state) {
        return Ok(());
    }
    'rows: for row in 0..region.rows.len() as u32 {
        let texts = row_at(region, row as usize);
        if has_values::<L, B>(book, state, attributes, texts) {
            found.push((place + 1, row + 1))?;
        }
    }
    Ok(())
}

/// The region at a place, counted from 0.
fn region_at(regions: &[Region], place: usize) -> &Region
    requires { place < length regions.now }
    ensures { result.now ≡ region_at regions.now place }
{
    &regions[place]
}

/// The texts of a row of the region, counted from 0.
fn row_at(region: &Region, row: usize) -> &[Text]
    requires { row < length region.now.rows }
    ensures { result.now ≡ row_at region.now row }
{
    region.rows.as_slice()[row].as_slice()
}

/// Whether every confirmed attribute is one of these.
fn holds_confirmed<L, B: Book<L>>(book: &B, attributes: &[u16], state: &State) -> bool
    requires { Fits (B.kit book.now) state.now }
    ensures { IsTrue result ↔ HoldsConfirmed state.now attributes.now }
{
    'cells: for attribute in 0..book.width() {
        let cell = &state.cells.as_slice()[usize::from(attribute)];
        if matches!(cell, Cell::Confirmed) && !attributes.contains(&attribute) {
            return false;
        }
    }
    true
}

/// Whether these are the values of the attributes, byte by byte.
fn has_values<L, B: Book<L>>(book: &B, state: &State, attributes: &[u16], texts: &[Text]) -> bool
    requires fits { Fits (B.kit book.now) state.now }
    requires within { All (λ attribute. attribute < (B.kit book.now).width) attributes.now }
    requires whole { length texts.now ≡ length attributes.now }
    ensures { IsTrue result ↔ (map (value_at (B.kit book.now) state.now) attributes.now ≡ texts.now) }
{
    'attributes: for (place, attribute) in attributes.iter().enumerate() {
        if value::<L, B>(book, state, *attribute) != texts[place].as_str() {
            return false;
        }
    }
    true
}

fn is_certain(verdict: RowVerdict) -> bool
    ensures { IsTrue result ↔ (verdict ≡ RowVerdict.Certain) }
{
    matches!(verdict, RowVerdict::Certain)
}

/// Those of the rows whose verdict is certain. Each rule is looked up at most once for each row.
pub(crate) fn certain_rows<L, B: Book<L>>(
    alloc: Global,
    work: &mut Work,
    book: &B,
    regions: &[Region],
    found: &[(u32, u32)],
    counts: &mut Steps<L>,
) -> Result<List<(u32, u32)>, NoMemory>
    requires room { IsRoomFor work.old (B.kit book.now) }
    requires regions { All (IsRegionOf (B.kit book.now)) regions.now }
    requires places { All (IsPlace regions.now) found.now }
    requires in_order { AllPairs IsOfferBefore found.now }
    ensures certain { IfOk result
        (ListsExactly (λ pair. Contains found.now pair × IsCertain (B.kit book.now) regions.now pair)) }
    ensures looks { counts.new.looks
        ≤ counts.old.looks + length (B.kit book.now).rules * length found.now }
    ensures size { KeepsSize work.old work.new }
{
    let mut offers = List::new(alloc);
    'found: for pair in found {
        let region = region_at(regions, pair.0 as usize - 1);
        let texts = row_at(region, pair.1 as usize - 1);
        let state = row_state(alloc, book.width(), region.attrs.as_slice(), texts)?;
        let verdict = verdict_of(work, book, state, counts);
        if is_certain(verdict) {
            offers.push(*pair)?;
        }
    }
    Ok(offers)
}
