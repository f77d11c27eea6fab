//! Rules that lack what they name, over the newest versions of the masters of a desk.
ghost use Rattle.std.specs.Prelude.{◌≡◌, ◌++◌, IfOk, OnOk, None, Some, if◌then◌else◌, not, position};
ghost use Rattle.desk_base.specs.Places.{has_text};
ghost use Rattle.fault_sentences.specs.Notes.{absent_note, column_note, lacking_note, lacking_place, rules_note};
ghost use Rattle.fault_sentences.specs.Notes.{rules_told};

use crate::bindings::{Over, no_master, wants_column};
use crate::notes::add;
use crate::records::fields_at;
use crate::sentence::Sentence;
use desk_base::{List, NoMemory, Str, Text};
use rule_text::RuleLine;
use std::alloc::Global;

/// Says that a rule looks into a master of which the desk has no version.
pub fn absent_note(alloc: Global, line: &RuleLine) -> Result<Sentence, NoMemory>
    ensures { IfOk result (λ note. note ≡ absent_note line.now) }
{
    let mut out = Sentence::new(alloc);
    no_master(&mut out, Over::Desk, line)?;
    Ok(out)
}

/// Says which column of a rule the newest version of its master lacks first, if it lacks one: from that version and
/// its sheet, of which the header alone is read.
pub fn column_note(
    alloc: Global,
    line: &RuleLine,
    version: u32,
    sheet: &[u8],
) -> Result<Option<Sentence>, NoMemory>
    ensures { IfOk result (λ note. note ≡ column_note line.now version sheet.now) }
{
    let columns = fields_at(alloc, sheet, 0)?;
    match lacking_place(columns.as_slice(), line) {
        Some(place) => Ok(Some(lacking_note(alloc, line, version, columns.as_slice(), place)?)),
        None => Ok(None),
    }
}

/// The first column of a rule that these are not: 1, 2 and so on for the keys, and 0 for that which is copied.
fn lacking_place(columns: &[List<u8>], line: &RuleLine) -> Option<u64>
    ensures { result ≡ lacking_place columns.now line.now }
{
    match lacking_key(columns, line.keys.as_slice()) {
        Some(place) => Some(place as u64 + 1),
        None => lacking_head(columns, &line.from),
    }
}

fn lacking_head(columns: &[List<u8>], from: &Text) -> Option<u64>
    ensures { result ≡ (if has_text columns.now from.now then None else Some 0) }
{
    if has_column(columns, from) {
        None
    } else {
        Some(0)
    }
}

fn lacking_key(columns: &[List<u8>], keys: &[(u16, Text)]) -> Option<usize>
    ensures { result ≡ position (λ key. not (has_text columns.now key.1)) keys.now }
{
    keys.iter().position(|key| !has_column(columns, &key.1))
}

fn has_column(columns: &[List<u8>], name: &Text) -> bool
    ensures { result ≡ has_text columns.now name.now }
{
    let name = name.as_str().as_bytes();
    columns.iter().any(|column| name == column.as_slice())
}

#[tactic(auto, unfolding(crate::specs::Notes::lacking_note))]
fn lacking_note(
    alloc: Global,
    line: &RuleLine,
    version: u32,
    columns: &[List<u8>],
    place: u64,
) -> Result<Sentence, NoMemory>
    ensures { IfOk result (λ note. note ≡ lacking_note line.now version columns.now place) }
{
    let mut out = Sentence::new(alloc);
    wants_column(&mut out, line, place)?;
    out.words(", which version ")?;
    out.number(version as u64)?;
    out.words(" of the master ")?;
    out.shown(line.master.as_str().as_bytes())?;
    out.words(", its newest, does not have; its columns are ")?;
    out.listed_fields(columns)?;
    Ok(out)
}

/// The note on rules, from the sentences on those that lack something: the first, with how many others there are.
pub fn rules_told(alloc: Global, sentences: &[Sentence]) -> Result<List<Str>, NoMemory>
    ensures { IfOk result (λ notes. notes ≡ rules_told sentences.now) }
{
    let mut notes = List::new(alloc);
    note_rules(&mut notes, sentences)?;
    Ok(notes)
}

fn note_rules(notes: &mut List<Str>, sentences: &[Sentence]) -> Result<(), NoMemory>
    ensures { OnOk result (notes.new ≡ notes.old ++ rules_told sentences.now) }
{
    let [first, others @ ..] = sentences else {
        return Ok(());
    };
    add(notes, &rules_note(notes.allocator(), first, others.len())?)
}

/// A sentence on a rule, with how many other rules lack something.
fn rules_note(alloc: Global, first: &Sentence, more: usize) -> Result<Sentence, NoMemory>
    ensures { IfOk result (λ note. note ≡ rules_note first.now more) }
{
    let mut out = Sentence::new(alloc);
    out.words(first.as_str())?;
    out.so_more(
        "; 1 more rule lacks a master or a column",
        "; ",
        " more rules lack a master or a column",
        more,
    )?;
    Ok(out)
}
