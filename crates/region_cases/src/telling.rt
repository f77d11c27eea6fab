//! What is told of the regions and the record of a case.
ghost use Rattle.std.specs.Prelude.{All, IfOk};
ghost use Rattle.fix_model.specs.Regions.{IsRegionOf};
ghost use Rattle.fix_model.specs.States.{Fits};
ghost use Rattle.fix_model.specs.Valid.{IsValid};
ghost use Rattle.fix_engine.specs.WorkSeen.{IsRoomFor};
ghost use Rattle.region_cases.specs.Regions.{AreRegionsOf};

use crate::record::{Booked, record_of};
use crate::regions::{are_regions_of, regions_of};
use case_json::Case as Record;
use desk_base::{List, Steps, Text};
use desk_cases::{Answer, Case};
use fix_engine::Work;
use fix_model::{Book, ListBook, Region, RowVerdict};
use region_suggest::{Suggestion, check, suggest};
use std::alloc::{AllocError, Global};
use std::test::Fail;

/// The verdicts of the rows of each region, the rows that are offered, and the attributes that are needed and what each
/// is hoped to gain.
pub fn told(case: &Case, answer: &mut Answer) -> Result<(), Fail> {
    let record = record_of(answer.alloc(), case)?;
    let regions = regions_of(answer.alloc(), case, record.attributes.as_slice())?;
    told_of(record, regions.as_slice(), answer)
}

/// The same of a record and regions.
fn told_of(given: Record, regions: &[Region], answer: &mut Answer) -> Result<(), Fail>
    requires valid { IsValid given.kit }
    requires fits { Fits given.kit given.state }
{
    if !are_regions_of(&given.kit, regions) {
        return Err(Fail::new("a region is none of the kit's"));
    }
    let mut given = Booked::new(given);
    let told = told_over(&mut given, regions, answer);
    drop(given);
    told
}

/// The same with the book.
fn told_over(given: &mut Booked, regions: &[Region], answer: &mut Answer) -> Result<(), Fail>
    requires fits { Fits given.old.book given.old.state }
    requires regions { AreRegionsOf given.old.book regions.now }
{
    add_verdicts(&given.book, regions, answer)?;
    let suggestion = suggestion(answer.alloc(), given, regions)?;
    add_suggestion(given.attributes.as_slice(), &suggestion, answer)
}

/// Adds the verdicts of the rows of all regions, a line a region.
fn add_verdicts(book: &ListBook, regions: &[Region], answer: &mut Answer) -> Result<(), Fail>
    requires { All (IsRegionOf book.now) regions.now }
{
    let mut lines = String::new(answer.alloc());
    tell_all(&mut lines, book, regions, answer.alloc())?;
    answer.text("verdicts", lines.as_str())
}

fn tell_all(
    lines: &mut String,
    book: &ListBook,
    regions: &[Region],
    alloc: Global,
) -> Result<(), Fail>
    requires { All (IsRegionOf book.now) regions.now }
{
    'regions: for region in regions {
        tell_region(lines, book, region, alloc)?;
    }
    Ok(())
}

/// The verdicts of the rows of a region.
fn tell_region(
    lines: &mut String,
    book: &ListBook,
    region: &Region,
    alloc: Global,
) -> Result<(), Fail>
    requires { IsRegionOf book.now region.now }
{
    let verdicts = verdicts(alloc, book, region)?;
    tell_verdicts(lines, verdicts.as_slice())
}

fn verdicts(alloc: Global, book: &ListBook, region: &Region) -> Result<List<RowVerdict>, Fail>
    requires { IsRegionOf book.now region.now }
{
    let mut work = work_for(alloc, book)?;
    Ok(check::<(), ListBook>(alloc, &mut work, book, region, &mut Steps::new(()))?)
}

fn tell_verdicts(lines: &mut String, verdicts: &[RowVerdict]) -> Result<(), Fail> {
    let mut between = "";
    for verdict in verdicts {
        lines.push_str(between)?;
        lines.push_str(match verdict {
            RowVerdict::Certain => "certain",
            RowVerdict::Partial => "partial",
            RowVerdict::Conflict => "conflict",
        })?;
        between = " ";
    }
    if verdicts.is_empty() {
        lines.push_str("none")?;
    }
    Ok(lines.push_str("\n")?)
}

/// What is suggested for the record.
fn suggestion(alloc: Global, given: &mut Booked, regions: &[Region]) -> Result<Suggestion, Fail>
    requires fits { Fits given.old.book given.old.state }
    requires regions { AreRegionsOf given.old.book regions.now }
{
    let mut work = work_for(alloc, &given.book)?;
    Ok(suggest::<(), ListBook>(
        alloc,
        &mut work,
        &given.book,
        &mut given.state,
        regions,
        &mut Steps::new(()),
    )?)
}

/// Room for work over the book.
pub fn work_for(alloc: Global, book: &ListBook) -> Result<Work, Fail>
    ensures { IfOk result (λ work. IsRoomFor work book.now) }
{
    let width = <ListBook as Book<()>>::width(book);
    let rules = <ListBook as Book<()>>::rules(book).len();
    Ok(Work::new(alloc, width, rules as u16)?)
}

/// Words after spaces without the first space, or `none` where there are none.
pub fn or_none(words: &str) -> &str {
    match words.trim_start() {
        "" => "none",
        words => words,
    }
}

/// The word of an attribute.
fn word(attributes: &[Text], attribute: u16) -> &str {
    match attributes.get(usize::from(attribute)) {
        Some(word) => word.as_str(),
        None => "?",
    }
}

/// Adds the word of an attribute after a space.
pub fn add_word(line: &mut String, attributes: &[Text], attribute: u16) -> Result<(), AllocError> {
    line.push_str(" ")?;
    line.push_str(word(attributes, attribute))
}

/// Adds the words of attributes.
pub fn add_words(
    name: &str,
    attributes: &[Text],
    listed: &[u16],
    answer: &mut Answer,
) -> Result<(), Fail> {
    let mut line = String::new(answer.alloc());
    for attribute in listed {
        add_word(&mut line, attributes, *attribute)?;
    }
    answer.text(name, or_none(line.as_str()))
}

/// Adds what is suggested.
fn add_suggestion(
    attributes: &[Text],
    suggestion: &Suggestion,
    answer: &mut Answer,
) -> Result<(), Fail> {
    add_offers(suggestion, answer)?;
    add_words("need", attributes, suggestion.need.as_slice(), answer)?;
    add_gains(attributes, suggestion.gains.as_slice(), answer)
}

fn add_offers(suggestion: &Suggestion, answer: &mut Answer) -> Result<(), Fail> {
    let mut line = String::new(answer.alloc());
    for (region, row) in suggestion.regions.as_slice() {
        write!(line, " {region}/{row}")?;
    }
    answer.text("offers", or_none(line.as_str()))
}

fn add_gains(attributes: &[Text], gains: &[(u16, u16)], answer: &mut Answer) -> Result<(), Fail> {
    let mut line = String::new(answer.alloc());
    for (attribute, gain) in gains {
        let word = word(attributes, *attribute);
        write!(line, " {word}+{gain}")?;
    }
    answer.text("gains", or_none(line.as_str()))
}
