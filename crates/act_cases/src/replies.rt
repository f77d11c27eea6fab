//! Replies as texts.
ghost use Rattle.std.specs.Prelude.{IsTrue};
ghost use Rattle.desk_sheets.specs.Derived.{IsFull as IsWide};
ghost use Rattle.desk_sheets.specs.Records.{IsFull};

use desk_base::List;
use desk_dump::dump_text;
use desk_json::{JsonFault, fault_text, text_of};
use desk_sheets::{contradictions_text, derived_text, records_text, report_text};
use desk_words::{DerivedSheet, RecordSheet, Reply};
use std::alloc::Global;
use std::test::Fail;

/// A word for the reply, and its JSON text; a report, records, derived rows, contradictions, what was published and a
/// dump are their text alone.
pub fn tell(text: &mut String, alloc: Global, reply: &Reply) -> Result<(), Fail> {
    match reply {
        Reply::Report(sheet) => push(text, &report_text(alloc, sheet)?),
        Reply::Records(sheet) => tell_records(text, alloc, sheet),
        Reply::Derived(sheet) => tell_derived(text, alloc, sheet),
        Reply::Body(_, body) => push(text, body),
        Reply::Contradictions(sheet) => push(text, &contradictions_text(alloc, sheet)?),
        Reply::Dump(tables) => push(text, &dump_text(alloc, tables)?),
        _ => {
            text.push_str(word_of(reply))?;
            push(text, &text_of(alloc, reply)?)
        }
    }
}

/// A word for a body that is not read, and the text of its fault.
pub fn tell_unread(text: &mut String, alloc: Global, fault: &JsonFault) -> Result<(), Fail> {
    text.push_str("unread ")?;
    push(text, &fault_text(alloc, fault, None)?)
}

fn tell_records(text: &mut String, alloc: Global, sheet: &RecordSheet) -> Result<(), Fail> {
    if !is_full(sheet) {
        return Err(Fail::new("a record has not a text for each attribute"));
    }
    push(text, &records_text(alloc, sheet)?)
}

fn tell_derived(text: &mut String, alloc: Global, sheet: &DerivedSheet) -> Result<(), Fail> {
    if !is_wide(sheet) {
        return Err(Fail::new("a derived row has not a text for each attribute"));
    }
    push(text, &derived_text(alloc, sheet)?)
}

/// A word for a reply, and a space.
fn word_of(reply: &Reply) -> &'static str {
    match reply {
        Reply::Made(_) => "made ",
        Reply::Opened(_) => "opened ",
        Reply::View(_) => "view ",
        Reply::Committed { .. } => "committed ",
        Reply::Batched(_) => "batched ",
        Reply::Suggested(_) => "suggested ",
        Reply::Report(_) => "report ",
        Reply::Records(_) => "records ",
        Reply::Explained(_) => "explained ",
        Reply::Derived(_) => "derived ",
        Reply::Carried(_) => "carried ",
        Reply::Sessions(_) => "sessions ",
        Reply::Catalogue(_) => "catalogue ",
        Reply::Edition(_) => "edition ",
        Reply::MasterRow(_) => "row ",
        Reply::Region(_) => "region ",
        Reply::Choices(_) => "choices ",
        Reply::Blocked(_) => "blocked ",
        Reply::Body(_, _) => "body ",
        Reply::Contradictions(_) => "contradictions ",
        Reply::Fits { .. } => "fits ",
        Reply::Unfit { .. } => "unfit ",
        Reply::Dump(_) => "dump ",
        Reply::Refused(_) => "refused ",
    }
}

fn push(text: &mut String, bytes: &List<u8>) -> Result<(), Fail> {
    match std::str::from_utf8(bytes.as_slice()) {
        Ok(more) => Ok(text.push_str(more)?),
        Err(_) => Err(Fail::new("a reply is no text")),
    }
}

/// Whether each record has a text for each attribute.
fn is_full(sheet: &RecordSheet) -> bool
    ensures { IsTrue result → IsFull sheet.now }
{
    let count = sheet.attributes.len();
    sheet
        .lines
        .as_slice()
        .iter()
        .all(|line| line.texts.len() == count)
}

/// Whether each derived row has a text for each attribute.
fn is_wide(sheet: &DerivedSheet) -> bool
    ensures { IsTrue result → IsWide sheet.now }
{
    let count = sheet.attributes.len();
    sheet.rows.as_slice().iter().all(|row| row.1.len() == count)
}
