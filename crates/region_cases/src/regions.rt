//! The regions of a case.
ghost use Rattle.std.specs.Prelude.{IsTrue};
ghost use Rattle.region_cases.specs.Regions.{AreRegionsOf};

use desk_base::{List, Text, place_of};
use desk_cases::Case;
use fix_model::{Kit, Region};
use region_suggest::is_region_of;
use std::alloc::Global;
use std::test::Fail;

/// The most regions of a case, and the most rows of one.
const MOST: usize = 1_000;

/// The regions of a case: each part `region` has the words of its attributes and, after a space, its rows.
pub fn regions_of(alloc: Global, case: &Case, attributes: &[Text]) -> Result<List<Region>, Fail> {
    let mut regions = List::new(alloc);
    for part in &case.parts {
        if part.name.as_str() == "region" {
            let Ok(line) = std::str::from_utf8(part.content.as_slice()) else {
                return Err(Fail::new("a region is no text"));
            };
            regions.push(region(alloc, line, attributes)?)?;
        }
    }
    Ok(regions)
}

fn region(alloc: Global, line: &str, attributes: &[Text]) -> Result<Region, Fail> {
    let Some((words, tableau)) = line.split_once(" ") else {
        return Err(Fail::new("a region has no rows"));
    };
    let mut attrs = List::new(alloc);
    for word in words.split(",") {
        match place_of(attributes, word) {
            Some(place) => attrs.push(u16::try_from(place).unwrap_or(u16::MAX))?,
            None => return Err(Fail::new("a region has an attribute that the case has not")),
        }
    }
    let mut rows = List::new(alloc);
    if tableau != "-" {
        for row in tableau.split("|") {
            rows.push(texts(alloc, row)?)?;
        }
    }
    Ok(Region { attrs, rows })
}

/// Texts with commas between.
fn texts(alloc: Global, row: &str) -> Result<List<Text>, Fail> {
    let mut made = List::new(alloc);
    for content in row.split(",") {
        match Text::new(alloc, content.as_bytes()) {
            Ok(text) => made.push(text)?,
            Err(_) => return Err(Fail::new("a region has a text that is none")),
        }
    }
    Ok(made)
}

/// Whether these are regions of the kit, and neither they nor their rows are too many.
pub fn are_regions_of(kit: &Kit, regions: &[Region]) -> bool
    ensures { IsTrue result → AreRegionsOf kit.now regions.now }
{
    regions.len() < MOST
        && regions.iter().all(|region| is_region_of(kit, region))
        && regions.iter().all(|region| region.rows.len() < MOST)
}
