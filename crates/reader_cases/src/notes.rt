//! Texts that read, and what is noted of them as likely slips.
use crate::published::number;
use crate::schemas::ADDRESS;
use desk_base::{List, Str};
use desk_cases::{Answer, Case};
use fault_sentences::{Sentence, absent_note, column_note, rules_told, schema_notes, sheet_notes};
use master_rows::Master;
use rule_text::{RuleLine, read};
use schema_core::Schema;
use std::alloc::Global;
use std::test::Fail;

/// The notes on the text of a case, a line each.
pub fn told(case: &Case, answer: &mut Answer) -> Result<(), Fail> {
    let notes = notes_of(answer.alloc(), case)?;
    let mut lines = String::new(answer.alloc());
    for note in notes.as_slice() {
        lines.push_str(note.as_str())?;
        lines.push_str("\n")?;
    }
    answer.text("notes", lines.as_str())
}

/// The notes on a schema, on rules or on a sheet.
fn notes_of(alloc: Global, case: &Case) -> Result<List<Str>, Fail> {
    if let Some(text) = case.part("toml") {
        return Ok(schema_notes(alloc, &Schema::read(alloc, text)?)?);
    }
    if let Some(text) = case.part("text") {
        return rules_notes(alloc, case, text);
    }
    Ok(sheet_notes(alloc, &Master::read(alloc, case.bytes("sheet")?)?)?)
}

/// The notes on rules over the schema of addresses.
fn rules_notes(alloc: Global, case: &Case, text: &[u8]) -> Result<List<Str>, Fail> {
    let schema = Schema::read(alloc, ADDRESS)?;
    let rulebook = read(alloc, text, &schema)?;
    notes_on(alloc, case, rulebook.lines.as_slice())
}

fn notes_on(alloc: Global, case: &Case, lines: &[RuleLine]) -> Result<List<Str>, Fail> {
    let mut sentences = List::new(alloc);
    for line in lines {
        add_note(&mut sentences, case, line)?;
    }
    Ok(rules_told(alloc, sentences.as_slice())?)
}

/// Adds the note on a rule: the newest sheet of its master is that of the case, or there is none.
fn add_note(sentences: &mut List<Sentence>, case: &Case, line: &RuleLine) -> Result<(), Fail> {
    let alloc = sentences.allocator();
    let Some(sheet) = case.part("sheet") else {
        return Ok(sentences.push(absent_note(alloc, line)?)?);
    };
    if let Some(note) = column_note(alloc, line, number(case, "version", 1)?, sheet)? {
        sentences.push(note)?;
    }
    Ok(())
}
