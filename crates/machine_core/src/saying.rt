//! What is said to a person where a proposal is refused.
ghost use Rattle.std.specs.Prelude.{◌≡◌, find, map, option_map, IfOk, IfSome};
ghost use Rattle.desk_words.specs.Tables.{published_of, rows_of};
ghost use Rattle.desk_valid.specs.Readings.{all_of};
ghost use Rattle.desk_valid.specs.Valid.{AreValid};
ghost use Rattle.schema_core.specs.Schemas.{IsSchema};
ghost use Rattle.machine_core.specs.Says.{absent_among, absent_master, absent_part, absent_rulebook, absent_schema};
ghost use Rattle.machine_core.specs.Says.{full_editions, full_masters, is_absent, list_with, master_for, on_edition, on_master};
ghost use Rattle.machine_core.specs.Says.{on_rulebook, on_schema, parts_for, rules_for, said_of, schema_for, stands_twice};
ghost use Rattle.machine_core.specs.Says.{unbound};

use crate::codes::{bind_fault, rules_fault, schema_fault, sheet_fault};
use crate::finding::{next_version, place_of};
use desk_base::{List, MAX_ROWS, NoMemory, Str, Text};
use desk_valid::{Parts, Rules, master_of, rules_of, schema_of};
use desk_words::{Kind, Proposal, Reader, Refusal, Tables, TextRow, Which};
use fault_sentences::{
    Over, Published, Sentence, absent_sentence, bad_name_sentence, bind_sentence, cells_sentence,
    folded_sentence, full_sentence, index_sentence, masters_sentence, plain_schema_sentence,
    rules_sentence, sheet_sentence, twice_sentence,
};
use master_rows::Master;
use schema_core::Schema;
use std::alloc::Global;

/// What is said of the refusal of a proposal.
pub fn says(
    alloc: Global,
    tables: &Tables,
    proposal: &Proposal,
    refusal: &Refusal,
) -> Result<Str, NoMemory>
    requires { AreValid (rows_of tables.now) }
    ensures { IfOk result (λ says. says ≡ said_of (published_of (rows_of tables.now)) proposal.now refusal.now) }
{
    let sentence = match proposal {
        Proposal::Schema { body } => on_schema(alloc, body.as_slice(), refusal)?,
        Proposal::Master { body, .. } => on_master(alloc, body.as_slice(), refusal)?,
        Proposal::Rulebook {
            schema,
            version,
            body,
            ..
        } => on_rulebook(alloc, tables, schema, *version, body.as_slice(), refusal)?,
        Proposal::Edition {
            rulebook,
            masters,
            folded,
            ..
        } => on_edition(
            alloc,
            tables,
            rulebook,
            masters.as_slice(),
            folded.as_slice(),
            refusal,
        )?,
    };
    Str::new(alloc, sentence.as_str())
}

/// Of a schema.
fn on_schema(alloc: Global, body: &[u8], refusal: &Refusal) -> Result<Sentence, NoMemory>
    ensures { IfOk result (λ says. says ≡ on_schema body.now refusal.now) }
{
    match refusal {
        Refusal::BadText(_, code, one, _) => plain_schema_sentence(
            alloc,
            schema_fault(*code, *one),
            body,
        ),
        Refusal::Limit(_, most) => full_sentence(alloc, Published::Schema, *most),
        _ => Ok(Sentence::new(alloc)),
    }
}

/// Of a master.
fn on_master(alloc: Global, body: &[u8], refusal: &Refusal) -> Result<Sentence, NoMemory>
    ensures { IfOk result (λ says. says ≡ on_master body.now refusal.now) }
{
    match refusal {
        Refusal::BadName(name) => bad_name_sentence(alloc, name.as_str()),
        Refusal::BadText(_, code, one, other) => sheet_sentence(
            alloc,
            sheet_fault(*code, *one, *other),
            MAX_ROWS,
            body,
        ),
        Refusal::Limit(which, most) => full_masters(alloc, *which, *most),
        _ => Ok(Sentence::new(alloc)),
    }
}

/// Of a master that would be one too many, or bring too many cells.
fn full_masters(alloc: Global, which: Which, most: u64) -> Result<Sentence, NoMemory>
    ensures { IfOk result (λ says. says ≡ full_masters which most) }
{
    match which {
        Which::MasterCells => cells_sentence(alloc),
        _ => full_sentence(alloc, Published::Master, most),
    }
}

/// Of a rulebook over a version of a schema.
fn on_rulebook(
    alloc: Global,
    tables: &Tables,
    schema: &Str,
    version: u32,
    body: &[u8],
    refusal: &Refusal,
) -> Result<Sentence, NoMemory>
    requires { AreValid (rows_of tables.now) }
    ensures { IfOk result (λ says.
        says ≡ on_rulebook (published_of (rows_of tables.now)) schema.now version body.now refusal.now) }
{
    match refusal {
        Refusal::BadName(name) => bad_name_sentence(alloc, name.as_str()),
        Refusal::NoSuch(_) => absent_schema(alloc, tables, schema, version),
        Refusal::BadText(_, code, one, other) => {
            let Some(read) = schema_for(alloc, tables, schema, version)? else {
                return Ok(Sentence::new(alloc));
            };
            rules_sentence(alloc, rules_fault(*code, *one, *other), &read, body)
        }
        Refusal::Limit(_, most) => full_sentence(alloc, Published::Rulebook, *most),
        _ => Ok(Sentence::new(alloc)),
    }
}

/// That a version of a schema is not there.
fn absent_schema(
    alloc: Global,
    tables: &Tables,
    name: &Str,
    version: u32,
) -> Result<Sentence, NoMemory>
    requires { AreValid (rows_of tables.now) }
    ensures { IfOk result (λ says.
        says ≡ absent_schema (published_of (rows_of tables.now)) name.now version) }
{
    let newest = next_version(tables.schemas.as_slice(), name.as_str()) - 1;
    absent_sentence(alloc, Published::Schema, name.as_str(), version, newest)
}

/// The schema of a version, if it is there.
pub(crate) fn schema_for(
    alloc: Global,
    tables: &Tables,
    name: &Str,
    version: u32,
) -> Result<Option<Schema>, NoMemory>
    requires { AreValid (rows_of tables.now) }
    ensures found { IfOk result (λ found.
        found ≡ schema_for (published_of (rows_of tables.now)) name.now version) }
    ensures sound { IfOk result (λ found. IfSome found IsSchema) }
{
    match place_of(tables.schemas.as_slice(), name.as_str(), version) {
        Some(place) => Ok(Some(schema_of(alloc, tables, place as u32)?)),
        None => Ok(None),
    }
}

/// Of an edition of a version of a rulebook and versions of masters.
fn on_edition(
    alloc: Global,
    tables: &Tables,
    book: &(Str, u32),
    masters: &[(Str, u32)],
    folded: &[Str],
    refusal: &Refusal,
) -> Result<Sentence, NoMemory>
    requires { AreValid (rows_of tables.now) }
    ensures { IfOk result (λ says. says
        ≡ on_edition (published_of (rows_of tables.now)) book.now masters.now folded.now refusal.now) }
{
    match refusal {
        Refusal::BadName(name) => bad_name_sentence(alloc, name.as_str()),
        Refusal::NoSuch(kind) => absent_part(alloc, tables, book, masters, *kind),
        Refusal::UnknownAttr(word) => {
            let Some(rules) = rules_for(alloc, tables, book)? else {
                return Ok(Sentence::new(alloc));
            };
            folded_sentence(alloc, word.as_str(), &rules.schema)
        }
        Refusal::Twice(name) => stands_twice(alloc, name.as_str(), folded),
        Refusal::Limit(which, most) => full_editions(alloc, masters, *which, *most),
        Refusal::BadText(reader, code, one, other) => unbound(
            alloc,
            tables,
            book,
            masters,
            *reader,
            (*code, *one, *other),
        ),
        _ => Ok(Sentence::new(alloc)),
    }
}

/// That the rulebook of an edition, or one of its masters, is not there.
fn absent_part(
    alloc: Global,
    tables: &Tables,
    book: &(Str, u32),
    masters: &[(Str, u32)],
    kind: Kind,
) -> Result<Sentence, NoMemory>
    requires { AreValid (rows_of tables.now) }
    ensures { IfOk result (λ says.
        says ≡ absent_part (published_of (rows_of tables.now)) book.now masters.now kind) }
{
    match kind {
        Kind::Rulebook => absent_rulebook(alloc, tables, book),
        _ => absent_among(alloc, tables, masters),
    }
}

/// That a version of a rulebook is not there.
fn absent_rulebook(alloc: Global, tables: &Tables, book: &(Str, u32)) -> Result<Sentence, NoMemory>
    requires { AreValid (rows_of tables.now) }
    ensures { IfOk result (λ says. says ≡ absent_rulebook (published_of (rows_of tables.now)) book.now) }
{
    let name = book.0.as_str();
    let newest = next_version(tables.rulebooks.as_slice(), name) - 1;
    absent_sentence(alloc, Published::Rulebook, name, book.1, newest)
}

/// That the first of these masters that is not there is not.
fn absent_among(
    alloc: Global,
    tables: &Tables,
    masters: &[(Str, u32)],
) -> Result<Sentence, NoMemory>
    requires { AreValid (rows_of tables.now) }
    ensures { IfOk result (λ says. says ≡ absent_among (published_of (rows_of tables.now)) masters.now) }
{
    match first_absent(tables.masters.as_slice(), masters) {
        Some(master) => absent_master(alloc, tables, master),
        None => Ok(Sentence::new(alloc)),
    }
}

/// The first of these versions of masters that is not there.
fn first_absent<'a>(rows: &[TextRow], masters: &'a [(Str, u32)]) -> Option<&'a (Str, u32)>
    ensures { option_map (λ master. master.now) result ≡ find (is_absent rows.now) masters.now }
{
    masters.iter().find(|master| is_absent(rows, master))
}

/// Whether this version of a master is not there.
fn is_absent(rows: &[TextRow], master: &(Str, u32)) -> bool
    ensures { result ≡ is_absent rows.now master.now }
{
    place_of(rows, master.0.as_str(), master.1).is_none()
}

/// That a version of a master is not there.
fn absent_master(alloc: Global, tables: &Tables, master: &(Str, u32)) -> Result<Sentence, NoMemory>
    requires { AreValid (rows_of tables.now) }
    ensures { IfOk result (λ says. says ≡ absent_master (published_of (rows_of tables.now)) master.now) }
{
    let name = master.0.as_str();
    let newest = next_version(tables.masters.as_slice(), name) - 1;
    absent_sentence(alloc, Published::Master, name, master.1, newest)
}

/// That a name stands twice in an edition.
fn stands_twice(alloc: Global, name: &str, folded: &[Str]) -> Result<Sentence, NoMemory>
    ensures { IfOk result (λ says. says ≡ stands_twice name.now folded.now) }
{
    twice_sentence(alloc, list_with(name, folded), name)
}

/// The list of an edition in which a name stands twice.
fn list_with(name: &str, folded: &[Str]) -> &'static str
    ensures { result.now ≡ list_with name.now folded.now }
{
    let stands = folded.iter().filter(|word| name == word.as_str()).count();
    if stands >= 2 { "folded" } else { "masters" }
}

/// Of an edition of too many masters, or that would be one too many.
fn full_editions(
    alloc: Global,
    masters: &[(Str, u32)],
    which: Which,
    most: u64,
) -> Result<Sentence, NoMemory>
    ensures { IfOk result (λ says. says ≡ full_editions masters.now which most) }
{
    match which {
        Which::EditionMasters => masters_sentence(alloc, masters.len() as u64),
        _ => full_sentence(alloc, Published::Edition, most),
    }
}

/// Of an edition that does not bind, or whose index would be too wide: by the reader, and by its code and numbers.
fn unbound(
    alloc: Global,
    tables: &Tables,
    book: &(Str, u32),
    masters: &[(Str, u32)],
    reader: Reader,
    told: (u64, u64, u64),
) -> Result<Sentence, NoMemory>
    requires { AreValid (rows_of tables.now) }
    ensures { IfOk result (λ says. says ≡ unbound (published_of (rows_of tables.now)) book.now masters.now reader
        told.0 told.1 told.2) }
{
    let (code, one, other) = told;
    if let Reader::Index = reader {
        return index_sentence(alloc, one);
    }
    let Some(parts) = parts_for(alloc, tables, book, masters)? else {
        return Ok(Sentence::new(alloc));
    };
    let fault = bind_fault(code, one, other);
    let rulebook = &parts.rules.rulebook;
    bind_sentence(
        alloc,
        fault,
        Over::Edition,
        rulebook,
        parts.masters.as_slice(),
    )
}

/// The rules and the masters of versions, if each is there.
fn parts_for(
    alloc: Global,
    tables: &Tables,
    book: &(Str, u32),
    masters: &[(Str, u32)],
) -> Result<Option<Parts>, NoMemory>
    requires { AreValid (rows_of tables.now) }
    ensures { IfOk result (λ found. found ≡ parts_for (published_of (rows_of tables.now)) book.now masters.now) }
{
    let Some(rules) = rules_for(alloc, tables, book)? else {
        return Ok(None);
    };
    match masters_for(alloc, tables, masters)? {
        Some(masters) => Ok(Some(Parts { rules, masters })),
        None => Ok(None),
    }
}

/// The rules of a version of a rulebook, if it is there.
fn rules_for(alloc: Global, tables: &Tables, book: &(Str, u32)) -> Result<Option<Rules>, NoMemory>
    requires { AreValid (rows_of tables.now) }
    ensures { IfOk result (λ found. found ≡ rules_for (published_of (rows_of tables.now)) book.now) }
{
    match place_of(tables.rulebooks.as_slice(), book.0.as_str(), book.1) {
        Some(place) => Ok(Some(rules_of(alloc, tables, place as u32)?)),
        None => Ok(None),
    }
}

/// The masters of versions under their names, if each is there.
fn masters_for(
    alloc: Global,
    tables: &Tables,
    masters: &[(Str, u32)],
) -> Result<Option<List<(Text, Master)>>, NoMemory>
    requires { AreValid (rows_of tables.now) }
    ensures { IfOk result (λ found.
        found ≡ all_of (map (master_for (published_of (rows_of tables.now))) masters.now)) }
{
    let mut found = List::new(alloc);
    'masters: for master in masters {
        let Some(one) = master_for(alloc, tables, master)? else {
            return Ok(None);
        };
        found.push(one)?;
    }
    Ok(Some(found))
}

/// The master of a version under its name, if it is there.
fn master_for(
    alloc: Global,
    tables: &Tables,
    master: &(Str, u32),
) -> Result<Option<(Text, Master)>, NoMemory>
    requires { AreValid (rows_of tables.now) }
    ensures { IfOk result (λ found. found ≡ master_for (published_of (rows_of tables.now)) master.now) }
{
    match place_of(tables.masters.as_slice(), master.0.as_str(), master.1) {
        Some(place) => Ok(Some(master_of(alloc, tables, place as u32)?)),
        None => Ok(None),
    }
}
