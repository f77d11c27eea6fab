//! What the files of words have. Each file is read and tested before the next.
ghost use Rattle.std.specs.Prelude.{◌≡◌, ◌≢◌, All, Err, IfErr, IfOk, None, Ok, Some, length, map};
ghost use Rattle.desk_base.specs.declared.limits.TheConstants.{MAX_SHEET_ROWS};
ghost use Rattle.master_rows.specs.Master.{IsMasterWithin};
ghost use Rattle.master_rows.specs.Sheet.{sheet_within};
ghost use Rattle.rule_text.specs.Binding.{AreMasters};
ghost use Rattle.rule_text.specs.Reading.{read_rules};
ghost use Rattle.rule_text.specs.Rulebooks.{IsRulebook};
ghost use Rattle.schema_core.specs.Schemas.{IsSchema};
ghost use Rattle.schema_core.specs.Reading.{schema_of};
ghost use Rattle.clean_run.specs.Files.{Folder};
ghost use Rattle.clean_run.specs.Parts.{AreChosen, AreParts, are_attributes, chosen_of, flags_named, in_file, is_named};
ghost use Rattle.clean_run.specs.Parts.{masters_in, parts_in, sources_in};
ghost use Rattle.clean_run.specs.Words.{IsFit};

use crate::ended::{Ended, Status};
use crate::files::{FileFault, Files};
use crate::naming::shown;
use crate::sentences::{refused, unreadable};
use crate::words::{SheetWord, Words};
use desk_base::{Duplicate, List, MAX_SHEET_ROWS, NoMemory, Text, has_text};
use fault_sentences::{rules_sentence, schema_sentence, sheet_sentence};
use master_rows::{Master, SheetFault};
use rule_text::{RuleFault, Rulebook, read};
use schema_core::{Schema, SchemaFault};
use std::alloc::{AllocError, Global};

/// What the files of words have.
#[derive(Drop)]
pub(crate) struct Parts {
    pub(crate) schema: Schema,
    pub(crate) chosen: Chosen,
    pub(crate) sources: Sources,
}

/// For each attribute whether an option names it.
#[derive(Drop)]
pub(crate) struct Chosen {
    pub(crate) known: List<bool>,
    pub(crate) folded: List<bool>,
}

/// The rules, and the masters with their names.
#[derive(Drop)]
pub(crate) struct Sources {
    pub(crate) rules: Rulebook,
    pub(crate) masters: List<(Text, Master)>,
}

/// What the files have. The first fault is told.
pub(crate) fn parts_in<F: Files>(
    alloc: Global,
    files: &F,
    words: &Words<'_>,
) -> Result<Parts, Ended>
    requires { IsFit words.now }
    ensures parts { (folder : Folder) → F.tells files.now folder
        → IfOk result (λ parts. parts_in words.now folder ≡ Ok parts) }
    ensures sound { IfOk result AreParts }
    ensures fault { (folder : Folder) → F.tells files.now folder
        → IfErr result (λ ended. ended.status ≢ Status.NoMemory → parts_in words.now folder ≡ Err ended.status) }
{
    let schema = schema_in(alloc, files, words.schema)?;
    let chosen = chosen_of(alloc, words, &schema)?;
    let sources = sources_in(alloc, files, words, &schema)?;
    Ok(Parts {
        schema,
        chosen,
        sources,
    })
}

/// Which attributes the options name: those of `--known` are looked up first.
fn chosen_of(alloc: Global, words: &Words<'_>, schema: &Schema) -> Result<Chosen, Ended>
    ensures chosen { IfOk result (λ chosen. chosen_of words.now schema.now ≡ Ok chosen) }
    ensures full { IfOk result (AreChosen schema.now) }
    ensures fault { IfErr result (λ ended. ended.status ≢ Status.NoMemory
        → chosen_of words.now schema.now ≡ Err ended.status) }
{
    let known = flags_named(alloc, schema, "--known", words.known.as_slice())?;
    let folded = flags_named(alloc, schema, "--folded", words.folded.as_slice())?;
    Ok(Chosen { known, folded })
}

/// The rules, and then the masters.
fn sources_in<F: Files>(
    alloc: Global,
    files: &F,
    words: &Words<'_>,
    schema: &Schema,
) -> Result<Sources, Ended>
    requires fit { IsFit words.now }
    requires schema { IsSchema schema.now }
    ensures sources { (folder : Folder) → F.tells files.now folder
        → IfOk result (λ sources. sources_in words.now folder schema.now ≡ Ok sources) }
    ensures rules { IfOk result (λ sources. IsRulebook schema.now sources.rules) }
    ensures masters { IfOk result (λ sources. AreMasters sources.masters) }
    ensures fault { (folder : Folder) → F.tells files.now folder
        → IfErr result (λ ended. ended.status ≢ Status.NoMemory
        → sources_in words.now folder schema.now ≡ Err ended.status) }
{
    let rules = rules_in(alloc, files, words.rules, schema)?;
    let masters = masters_in(alloc, files, words.sheets.as_slice())?;
    Ok(Sources { rules, masters })
}

/// The bytes of a file.
fn bytes_in<F: Files>(alloc: Global, files: &F, name: &str) -> Result<Vec<u8>, Ended>
    ensures bytes { (folder : Folder) → F.tells files.now folder
        → IfOk result (λ bytes. folder name.now ≡ Some bytes.items) }
    ensures fault { (folder : Folder) → F.tells files.now folder
        → IfErr result (λ ended. ended.status ≢ Status.NoMemory
        → (ended.status ≡ Status.Unreadable) × (folder name.now ≡ None)) }
{
    match files.read(name) {
        Ok(bytes) => Ok(bytes),
        Err(FileFault::NoMemory) => Err(Ended::no_memory()),
        Err(FileFault::Unreadable) => Err(unreadable(alloc, name)?),
    }
}

/// The schema in a file.
fn schema_in<F: Files>(alloc: Global, files: &F, name: &str) -> Result<Schema, Ended>
    ensures schema { (folder : Folder) → F.tells files.now folder
        → IfOk result (λ schema. in_file schema_of (folder name.now) ≡ Ok schema) }
    ensures sound { IfOk result IsSchema }
    ensures fault { (folder : Folder) → F.tells files.now folder
        → IfErr result (λ ended. ended.status ≢ Status.NoMemory
        → in_file schema_of (folder name.now) ≡ Err ended.status) }
{
    let bytes = bytes_in(alloc, files, name)?;
    match Schema::read(alloc, bytes.as_slice()) {
        Ok(schema) => Ok(schema),
        Err(SchemaFault::NoMemory) => Err(Ended::no_memory()),
        Err(fault) => {
            let sentence = schema_sentence(alloc, fault, bytes.as_slice());
            Err(refused(alloc, name, sentence)?)
        }
    }
}

/// The rules in a file.
fn rules_in<F: Files>(
    alloc: Global,
    files: &F,
    name: &str,
    schema: &Schema,
) -> Result<Rulebook, Ended>
    requires { IsSchema schema.now }
    ensures rules { (folder : Folder) → F.tells files.now folder
        → IfOk result (λ rules. in_file (λ text. read_rules text schema.now) (folder name.now) ≡ Ok rules) }
    ensures sound { IfOk result (IsRulebook schema.now) }
    ensures fault { (folder : Folder) → F.tells files.now folder
        → IfErr result (λ ended. ended.status ≢ Status.NoMemory
        → in_file (λ text. read_rules text schema.now) (folder name.now) ≡ Err ended.status) }
{
    let bytes = bytes_in(alloc, files, name)?;
    match read(alloc, bytes.as_slice(), schema) {
        Ok(rules) => Ok(rules),
        Err(RuleFault::NoMemory) => Err(Ended::no_memory()),
        Err(fault) => {
            let sentence = rules_sentence(alloc, fault, schema, bytes.as_slice());
            Err(refused(alloc, name, sentence)?)
        }
    }
}

/// The masters in the files of their words, each with its name.
fn masters_in<F: Files>(
    alloc: Global,
    files: &F,
    sheets: &[SheetWord<'_>],
) -> Result<List<(Text, Master)>, Ended>
    ensures masters { (folder : Folder) → F.tells files.now folder
        → IfOk result (λ masters. masters_in folder sheets.now ≡ Ok masters) }
    ensures named { IfOk result (λ masters. map (λ master. master.0) masters ≡ map (λ sheet. sheet.name) sheets.now) }
    ensures sound { IfOk result (All (λ master. IsMasterWithin MAX_SHEET_ROWS master.1)) }
    ensures fault { (folder : Folder) → F.tells files.now folder
        → IfErr result (λ ended. ended.status ≢ Status.NoMemory → masters_in folder sheets.now ≡ Err ended.status) }
{
    let mut masters = List::new(alloc);
    'sheets: for sheet in sheets {
        let master = master_in(alloc, files, sheet.file)?;
        masters.push((sheet.name.copy()?, master))?;
    }
    Ok(masters)
}

/// The master in a file.
fn master_in<F: Files>(alloc: Global, files: &F, name: &str) -> Result<Master, Ended>
    ensures master { (folder : Folder) → F.tells files.now folder
        → IfOk result (λ master. in_file (sheet_within MAX_SHEET_ROWS) (folder name.now) ≡ Ok master) }
    ensures sound { IfOk result (IsMasterWithin MAX_SHEET_ROWS) }
    ensures fault { (folder : Folder) → F.tells files.now folder
        → IfErr result (λ ended. ended.status ≢ Status.NoMemory
        → in_file (sheet_within MAX_SHEET_ROWS) (folder name.now) ≡ Err ended.status) }
{
    let bytes = bytes_in(alloc, files, name)?;
    match Master::read_within(alloc, MAX_SHEET_ROWS, bytes.as_slice()) {
        Ok(master) => Ok(master),
        Err(SheetFault::NoMemory) => Err(Ended::no_memory()),
        Err(fault) => {
            let sentence = sheet_sentence(alloc, fault, MAX_SHEET_ROWS, bytes.as_slice());
            Err(refused(alloc, name, sentence)?)
        }
    }
}

/// For each attribute whether an option names it. Each name is that of an attribute.
fn flags_named(
    alloc: Global,
    schema: &Schema,
    option: &str,
    names: &[&str],
) -> Result<List<bool>, Ended>
    ensures flags { IfOk result (λ flags. flags_named schema.now names.now ≡ Ok flags) }
    ensures full { IfOk result (λ flags. length flags ≡ length schema.now.attributes) }
    ensures fault { IfErr result (λ ended. ended.status ≢ Status.NoMemory
        → flags_named schema.now names.now ≡ Err ended.status) }
{
    let attributes = schema.attributes.as_slice();
    if are_attributes(attributes, names) {
        return Ok(flags_of(alloc, attributes, names)?);
    }
    Err(no_attribute(alloc, option, stranger(attributes, names))?)
}

/// Whether each of these names is that of an attribute.
fn are_attributes(attributes: &[Text], names: &[&str]) -> bool
    ensures { result ≡ are_attributes attributes.now names.now }
{
    names.iter().all(|name| has_text(attributes, name))
}

/// The first of these names that is none of the attributes.
fn stranger<'a>(attributes: &[Text], names: &[&'a str]) -> &'a str {
    let first = names.iter().find(|name| !has_text(attributes, name));
    first.copied().unwrap_or("")
}

/// For each attribute whether it is one of these names.
fn flags_of(alloc: Global, attributes: &[Text], names: &[&str]) -> Result<List<bool>, NoMemory>
    ensures { IfOk result (λ flags. flags ≡ map (is_named names.now) attributes.now) }
{
    let mut flags = List::new(alloc);
    'attributes: for attribute in attributes {
        flags.push(is_named(names, attribute.as_str()))?;
    }
    Ok(flags)
}

/// Whether this attribute is one of the names.
fn is_named(names: &[&str], attribute: &str) -> bool
    ensures { result ≡ is_named names.now attribute.now }
{
    names.iter().any(|name| attribute == *name)
}

fn no_attribute(alloc: Global, option: &str, name: &str) -> Result<Ended, AllocError>
    ensures { IfOk result (λ ended. ended.status ≡ Status.Words) }
{
    let name = shown(alloc, name)?;
    let why = format!(in alloc;
        "{option} names {}, which is no attribute of the schema",
        name.as_str()
    )?;
    Ok(Ended::because(Status::Words, why))
}
