//! What is told to a person of a proposal that fits: the likely slips in it.
ghost use Rattle.std.specs.Prelude.{◌≡◌, ◌++◌, ◌∷◌, [], IfOk, OnOk};
ghost use Rattle.std.specs.List.{filter_map};
ghost use Rattle.desk_words.specs.Tables.{published_of, rows_of};
ghost use Rattle.desk_valid.specs.Valid.{AreValid};
ghost use Rattle.fault_sentences.specs.Notes.{schema_notes, sheet_notes};
ghost use Rattle.master_rows.specs.Sheet.{read_sheet};
ghost use Rattle.schema_core.specs.Reading.{schema_of};
ghost use Rattle.rule_text.specs.Reading.{read_rules};
ghost use Rattle.schema_core.specs.Schemas.{IsSchema};
ghost use Rattle.machine_core.specs.Versions.{AreVersions};
ghost use Rattle.machine_core.specs.Notes.{if_read, notes_of, rule_note, rulebook_notes, rules_notes};

use crate::finding::newest_of;
use crate::saying::schema_for;
use desk_base::{List, NoMemory, Str};
use desk_words::{Proposal, Tables, TextRow};
use fault_sentences::{Sentence, absent_note, column_note, rules_told, schema_notes, sheet_notes};
use master_rows::{Master, SheetFault};
use rule_text::{RuleFault, RuleLine, read};
use schema_core::{Schema, SchemaFault};
use std::alloc::Global;

/// The notes on a proposal.
pub(crate) fn notes(
    alloc: Global,
    tables: &Tables,
    proposal: &Proposal,
) -> Result<List<Str>, NoMemory>
    requires { AreValid (rows_of tables.now) }
    ensures { IfOk result (λ notes. notes ≡ notes_of (published_of (rows_of tables.now)) proposal.now) }
{
    match proposal {
        Proposal::Schema { body } => on_schema(alloc, body.as_slice()),
        Proposal::Master { body, .. } => on_master(alloc, body.as_slice()),
        Proposal::Rulebook {
            schema,
            version,
            body,
            ..
        } => on_rulebook(alloc, tables, schema, *version, body.as_slice()),
        Proposal::Edition { .. } => Ok(List::new(alloc)),
    }
}

/// On a schema.
fn on_schema(alloc: Global, body: &[u8]) -> Result<List<Str>, NoMemory>
    ensures { IfOk result (λ notes. notes ≡ if_read schema_notes (schema_of body.now)) }
{
    match Schema::read(alloc, body) {
        Ok(schema) => schema_notes(alloc, &schema),
        Err(SchemaFault::NoMemory) => Err(NoMemory),
        Err(_) => Ok(List::new(alloc)),
    }
}

/// On a sheet. It is read once more.
fn on_master(alloc: Global, body: &[u8]) -> Result<List<Str>, NoMemory>
    ensures { IfOk result (λ notes. notes ≡ if_read sheet_notes (read_sheet body.now)) }
{
    match Master::read(alloc, body) {
        Ok(master) => sheet_notes(alloc, &master),
        Err(SheetFault::NoMemory) => Err(NoMemory),
        Err(_) => Ok(List::new(alloc)),
    }
}

/// On a text of rules over a version of a schema.
fn on_rulebook(
    alloc: Global,
    tables: &Tables,
    schema: &Str,
    version: u32,
    body: &[u8],
) -> Result<List<Str>, NoMemory>
    requires { AreValid (rows_of tables.now) }
    ensures { IfOk result (λ notes.
        notes ≡ rulebook_notes (published_of (rows_of tables.now)) schema.now version body.now) }
{
    match schema_for(alloc, tables, schema, version)? {
        Some(read) => on_rules(alloc, tables.masters.as_slice(), &read, body),
        None => Ok(List::new(alloc)),
    }
}

/// On a text of rules over a schema.
fn on_rules(
    alloc: Global,
    masters: &[TextRow],
    schema: &Schema,
    body: &[u8],
) -> Result<List<Str>, NoMemory>
    requires schema { IsSchema schema.now }
    requires masters { AreVersions (λ row. row.name) (λ row. row.version) masters.now }
    ensures { IfOk result (λ notes. notes
        ≡ if_read (λ rulebook. rules_notes masters.now rulebook.lines) (read_rules body.now schema.now)) }
{
    match read(alloc, body, schema) {
        Ok(rulebook) => rules_told(
            alloc,
            rule_notes(alloc, masters, rulebook.lines.as_slice())?.as_slice(),
        ),
        Err(RuleFault::NoMemory) => Err(NoMemory),
        Err(_) => Ok(List::new(alloc)),
    }
}

/// The sentences on the rules that lack something.
fn rule_notes(
    alloc: Global,
    masters: &[TextRow],
    lines: &[RuleLine],
) -> Result<List<Sentence>, NoMemory>
    requires { AreVersions (λ row. row.name) (λ row. row.version) masters.now }
    ensures { IfOk result (λ notes. notes ≡ filter_map (rule_note masters.now) lines.now) }
{
    let mut notes = List::new(alloc);
    'lines: for line in lines {
        add_note(&mut notes, masters, line)?;
    }
    Ok(notes)
}

/// Adds the sentence on a rule, if it lacks something.
fn add_note(
    notes: &mut List<Sentence>,
    masters: &[TextRow],
    line: &RuleLine,
) -> Result<(), NoMemory>
    requires { AreVersions (λ row. row.name) (λ row. row.version) masters.now }
    ensures { OnOk result (notes.new ≡ notes.old ++ filter_map (rule_note masters.now) (line.now ∷ [])) }
{
    match rule_note(notes.allocator(), masters, line)? {
        Some(note) => notes.push(note),
        None => Ok(()),
    }
}

/// That a rule looks into no master of the desk, or which column its newest version lacks.
fn rule_note(
    alloc: Global,
    masters: &[TextRow],
    line: &RuleLine,
) -> Result<Option<Sentence>, NoMemory>
    requires { AreVersions (λ row. row.name) (λ row. row.version) masters.now }
    ensures { IfOk result (λ note. note ≡ rule_note masters.now line.now) }
{
    match newest_of(masters, line.master.as_str()) {
        Some(place) => {
            let row = &masters[place];
            column_note(alloc, line, row.version, row.body.as_slice())
        }
        None => Ok(Some(absent_note(alloc, line)?)),
    }
}
