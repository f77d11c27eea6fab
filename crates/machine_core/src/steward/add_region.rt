//! AddRegion: a region of a version of an edition.
ghost use Rattle.std.specs.Prelude.{◌≡◌, ◌<◌, ◌≤◌, length, zip};
ghost use Rattle.machine_core.specs.Checked.{each};
ghost use Rattle.machine_core.specs.Outcomes.{Finds};
ghost use Rattle.machine_core.specs.Steward.AddRegion.{full_row, full_rows, region_count, region_on, short_text};

use crate::attributes::another_attributes;
use crate::limits::within;
use crate::stop::Stop;
use desk_base::{Duplicate, List, MAX_TEXT, Str, Text};
use desk_words::{Refusal, RegionRow, Which};
use fix_model::Region;
use std::alloc::Global;

/// The row of a region of the edition at a place, counted from 0, which has these attributes.
pub fn region_on(
    alloc: Global,
    regions: &[RegionRow],
    edition: u32,
    attributes: &[Text],
    words: &[Str],
    rows: &[List<Str>],
) -> Result<RegionRow, Stop>
    requires { length attributes.now < 65536 }
    ensures finds { Finds result (region_on regions.now edition attributes.now words.now rows.now) }
{
    let attrs = another_attributes(alloc, attributes, words)?;
    within(Which::RegionRows, rows.len() as u64)?;
    let texts = full_rows(alloc, words, rows)?;
    within(Which::Regions, region_count(regions, edition) + 1)?;
    Ok(RegionRow {
        edition,
        region: Region { attrs, rows: texts },
    })
}

/// How many regions an edition has.
pub fn region_count(regions: &[RegionRow], edition: u32) -> u64
    ensures count { result ≡ region_count regions.now edition }
    ensures few { result ≤ length regions.now }
{
    regions.iter().filter(|row| row.edition == edition).count() as u64
}

/// A text of a row, which fits into a cell.
fn short_text(alloc: Global, attribute: &Str, text: &Str) -> Result<Text, Stop>
    ensures { Finds result (short_text (attribute.now, text.now)) }
{
    if text.as_str().len() > MAX_TEXT {
        return Err(Stop::Refused(Refusal::ValueLong(attribute.copy()?)));
    }
    Ok(Text::of(alloc, text.as_str())?)
}

/// The row of this number, counted from 1, with a text for each attribute.
fn full_row(
    alloc: Global,
    attributes: &[Str],
    number: u64,
    texts: &[Str],
) -> Result<List<Text>, Stop>
    ensures { Finds result (full_row attributes.now number texts.now) }
{
    if texts.len() != attributes.len() {
        return Err(Stop::Refused(Refusal::RowWidth(number)));
    }
    short_texts(alloc, attributes, texts)
}

/// The texts of a row, each of which fits into a cell.
fn short_texts(alloc: Global, attributes: &[Str], texts: &[Str]) -> Result<List<Text>, Stop>
    requires { length texts.now ≡ length attributes.now }
    ensures { Finds result (each short_text (zip attributes.now texts.now)) }
{
    let mut row = List::new(alloc);
    'texts: for (place, text) in texts.iter().enumerate() {
        row.push(short_text(alloc, &attributes[place], text)?)?;
    }
    Ok(row)
}

/// The rows of a region, each with a text for each attribute.
fn full_rows(
    alloc: Global,
    attributes: &[Str],
    rows: &[List<Str>],
) -> Result<List<List<Text>>, Stop>
    ensures { Finds result (full_rows attributes.now 1 rows.now) }
{
    let mut full = List::new(alloc);
    'rows: for (place, texts) in rows.iter().enumerate() {
        full.push(full_row(alloc, attributes, place as u64 + 1, texts.as_slice())?)?;
    }
    Ok(full)
}
