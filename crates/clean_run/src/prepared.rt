//! What words come to over the files that they name: a setting, and a book over the masters.
ghost use Rattle.std.specs.Prelude.{◌≡◌, ◌≢◌, ◌≤◌, Err, IfErr, IfOk, Ok, length};
ghost use Rattle.fix_model.specs.Valid.{IsValid};
ghost use Rattle.clean_run.specs.Files.{Folder};
ghost use Rattle.clean_run.specs.Parts.{AreParts, accepted};
ghost use Rattle.clean_run.specs.Prepared.{IsPrepared, assembled, book_in, bound_parts, indexed, places};
ghost use Rattle.clean_run.specs.Prepared.{prepared};
ghost use Rattle.clean_run.specs.Words.{IsFit};

use crate::ended::{Ended, Status};
use crate::files::Files;
use crate::parts::{Parts, parts_in};
use crate::sentences::refused;
use crate::words::Words;
use desk_base::{Duplicate, List, NoMemory, Text};
use fault_sentences::{Over, bind_sentence, index_sentence};
use fix_model::Kit;
use master_index::{BuildFault, SortedBook};
use rule_text::{BindFault, bind, names_in};
use sheet_clean::Setting;
use std::alloc::Global;

/// What a sheet is cleaned by.
#[derive(Drop)]
pub struct Prepared {
    pub setting: Setting,
    pub book: SortedBook,
}

/// What the words come to over their files. Each file is read and tested before the next; the first fault is told.
pub(crate) fn prepare<F: Files>(
    alloc: Global,
    files: &F,
    words: &Words<'_>,
) -> Result<Prepared, Ended>
    requires { IsFit words.now }
    ensures fits { IfOk result IsPrepared }
    ensures prepared { (folder : Folder) → F.tells files.now folder
        → IfOk result (λ made. prepared words.now folder ≡ Ok made) }
    ensures fault { (folder : Folder) → F.tells files.now folder
        → IfErr result (λ ended. ended.status ≢ Status.NoMemory → prepared words.now folder ≡ Err ended.status) }
{
    let parts = parts_in(alloc, files, words)?;
    assembled(alloc, words, parts)
}

/// What it comes to: the rules bound to the masters.
fn assembled(alloc: Global, words: &Words<'_>, parts: Parts) -> Result<Prepared, Ended>
    requires fit { IsFit words.now }
    requires parts { AreParts parts }
    ensures fits { IfOk result IsPrepared }
    ensures prepared { IfOk result (λ made. assembled words.now parts ≡ Ok made) }
    ensures fault { IfErr result (λ ended. ended.status ≢ Status.NoMemory
        → assembled words.now parts ≡ Err ended.status) }
{
    let sources = &parts.sources;
    let names = names_in(
        alloc,
        &parts.schema,
        &sources.rules,
        sources.masters.as_slice(),
    )?;
    let verdict = verdict_of(&words.verdict)?;
    let book = book_in(alloc, words.rules, &parts)?;
    let chosen = parts.chosen;
    Ok(Prepared {
        setting: Setting {
            names,
            known: chosen.known,
            delimiter: words.delimiter,
            verdict,
        },
        book,
    })
}

/// The book of the rules over the masters. Where there is none, the file with the rules is told.
fn book_in(alloc: Global, file: &str, parts: &Parts) -> Result<SortedBook, Ended>
    requires { AreParts parts.now }
    ensures book { IfOk result (λ book. book_in parts.now ≡ Ok book) }
    ensures fault { IfErr result (λ ended. ended.status ≢ Status.NoMemory → book_in parts.now ≡ Err ended.status) }
{
    let kit = kit_of(alloc, file, parts)?;
    book_of(alloc, file, kit)
}

/// Their kit.
fn kit_of(alloc: Global, file: &str, parts: &Parts) -> Result<Kit, Ended>
    requires { AreParts parts.now }
    ensures kit { IfOk result (λ kit. accepted (bound_parts parts.now) ≡ Ok kit) }
    ensures valid { IfOk result IsValid }
    ensures fault { IfErr result (λ ended. ended.status ≢ Status.NoMemory
        → accepted (bound_parts parts.now) ≡ Err ended.status) }
{
    let numbers = numbers_of(alloc, parts.chosen.folded.as_slice())?;
    let masters = parts.sources.masters.as_slice();
    match bind(
        alloc,
        &parts.sources.rules,
        &parts.schema,
        masters,
        numbers.as_slice(),
    ) {
        Ok(kit) => Ok(kit),
        Err(BindFault::NoMemory) => Err(Ended::no_memory()),
        Err(fault) => {
            let sentence = bind_sentence(alloc, fault, Over::Given, &parts.sources.rules, masters);
            Err(refused(alloc, file, sentence)?)
        }
    }
}

/// The places of the flags that are set, counted from 0, in ascending order.
fn numbers_of(alloc: Global, flags: &[bool]) -> Result<List<u16>, NoMemory>
    requires { length flags.now ≤ 48 }
    ensures { IfOk result (λ numbers. numbers ≡ places flags.now) }
{
    let mut numbers = List::new(alloc);
    'places: for place in 0..flags.len() as u16 {
        if flags[usize::from(place)] {
            numbers.push(place)?;
        }
    }
    Ok(numbers)
}

/// The book over a kit, where its index is not too large.
fn book_of(alloc: Global, file: &str, kit: Kit) -> Result<SortedBook, Ended>
    requires { IsValid kit }
    ensures book { IfOk result (λ book. indexed kit ≡ Ok book) }
    ensures fault { IfErr result (λ ended. ended.status ≢ Status.NoMemory → indexed kit ≡ Err ended.status) }
{
    match SortedBook::build(alloc, kit) {
        Ok(book) => Ok(book),
        Err(BuildFault::NoMemory) => Err(Ended::no_memory()),
        Err(BuildFault::TooWide(entries)) => {
            Err(refused(alloc, file, index_sentence(alloc, entries))?)
        }
    }
}

/// The name of the column of verdicts, if one is wanted.
fn verdict_of(name: &Option<Text>) -> Result<Option<Text>, NoMemory>
    ensures { IfOk result (λ copy. copy ≡ name.now) }
{
    match name {
        Some(name) => Ok(Some(name.copy()?)),
        None => Ok(None),
    }
}
