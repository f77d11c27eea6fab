//! AddEdition: the next version of an edition's name, of a rulebook and masters that bind.
ghost use Rattle.std.specs.Prelude.{◌≡◌, ◌<◌, ◌≤◌, ◌^◌, nat_le, IfOk, [], Some, length};
ghost use Rattle.std.specs.List.{list_any};
ghost use Rattle.std.specs.Str.{bytes_eq};
ghost use Rattle.desk_base.specs.declared.limits.TheConstants.{MAX_ENTRIES};
ghost use Rattle.desk_words.specs.declared.refusal.Reader.TheVariants as reader;
ghost use Rattle.desk_words.specs.declared.refusal.Refusal.TheVariants.{BadText};
ghost use Rattle.desk_words.specs.Tables.{published_of, rows_of};
ghost use Rattle.rule_text.specs.Binding.{AreFolded};
ghost use Rattle.rule_text.specs.Rulebooks.{IsRulebook};
ghost use Rattle.schema_core.specs.Schemas.{IsSchema};
ghost use Rattle.desk_valid.specs.Readings.{rules_at};
ghost use Rattle.desk_valid.specs.Bindings.{AreBindable};
ghost use Rattle.desk_valid.specs.Valid.{AreValid};
ghost use Rattle.machine_core.specs.Checked.{each_following, unless};
ghost use Rattle.machine_core.specs.Outcomes.{Finds, WantsNone};
ghost use Rattle.machine_core.specs.DeskLook.Check.{entries_of};
ghost use Rattle.machine_core.specs.Steward.AddEdition.{AreOthers, HasParts, another_master, bound_row, edition_row, in_order};
ghost use Rattle.machine_core.specs.Steward.AddEdition.{next_edition, master_name, narrow};

use crate::attributes::{another_attributes, is_among};
use crate::faults::bind_stop;
use crate::finding::{named, next_version};
use crate::limits::within;
use crate::naming::{name_text, proper_name};
use crate::stop::Stop;
use desk_base::{Duplicate, List, MAX_ENTRIES, NoMemory, Str};
use desk_valid::{Parts, Rules, masters_of, rules_of};
use desk_words::{EditionRow, Kind, Reader, Refusal, Tables, TextRow, Which};
use rule_text::bind;
use std::alloc::Global;

/// The row of a new edition, of a version of a rulebook and versions of masters, with these attributes folded.
pub fn edition_row(
    alloc: Global,
    tables: &Tables,
    name: &Str,
    rulebook: &(Str, u32),
    masters: &[(Str, u32)],
    folded: &[Str],
) -> Result<EditionRow, Stop>
    requires { AreValid (rows_of tables.now) }
    ensures row { Finds result
        (edition_row (published_of (rows_of tables.now)) name.now rulebook.now masters.now folded.now) }
    ensures parts { IfOk result (HasParts (published_of (rows_of tables.now))) }
{
    proper_name(name)?;
    let book = named(
        tables.rulebooks.as_slice(),
        &rulebook.0,
        rulebook.1,
        Kind::Rulebook,
    )?;
    let rules = rules_of(alloc, tables, book)?;
    let attributes = another_attributes(alloc, rules.schema.attributes.as_slice(), folded)?;
    within(Which::EditionMasters, masters.len() as u64)?;
    let places = masters_named(alloc, tables, masters)?;
    within(Which::Editions, tables.editions.len() as u64 + 1)?;
    let folded = in_order(
        alloc,
        attributes.as_slice(),
        rules.schema.attributes.len() as u16,
    )?;
    let row = next_edition(alloc, tables, name, book, places, folded)?;
    bound_row(alloc, tables, rules, row)
}

/// How many entries the index of an edition has.
pub(crate) fn edition_entries(alloc: Global, tables: &Tables, row: &EditionRow) -> Result<u64, Stop>
    requires valid { AreValid (rows_of tables.now) }
    requires parts { HasParts (published_of (rows_of tables.now)) row.now }
    ensures { Finds result (entries_of (published_of (rows_of tables.now)) row.now) }
{
    let rules = rules_of(alloc, tables, row.rulebook)?;
    let masters = masters_of(alloc, tables, row.masters.as_slice())?;
    match bind(
        alloc,
        &rules.rulebook,
        &rules.schema,
        masters.as_slice(),
        row.folded.as_slice(),
    ) {
        Ok(kit) => Ok(kit.entries()),
        Err(fault) => Err(bind_stop(fault)),
    }
}

/// The next version of an edition's name, with these masters and folded attributes.
fn next_edition(
    alloc: Global,
    tables: &Tables,
    name: &Str,
    rulebook: u32,
    masters: List<u32>,
    folded: List<u16>,
) -> Result<EditionRow, NoMemory>
    requires valid { AreValid (rows_of tables.now) }
    requires name { length name.now ≤ 32 }
    ensures { IfOk result
        (λ row. row ≡ next_edition tables.now.editions.items name.now rulebook masters folded) }
{
    let version = next_version(tables.editions.as_slice(), name.as_str());
    let name = name_text(alloc, name)?;
    Ok(EditionRow {
        name,
        version,
        rulebook,
        masters,
        folded,
    })
}

/// The places of versions of masters, each of another name.
fn masters_named(alloc: Global, tables: &Tables, masters: &[(Str, u32)]) -> Result<List<u32>, Stop>
    requires { length tables.now.masters.items < 2 ^ 31 }
    ensures finds { Finds result (each_following [] (another_master tables.now.masters.items) masters.now) }
    ensures others { IfOk result (AreOthers (published_of (rows_of tables.now))) }
    ensures each { IfOk result (λ places. length places ≡ length masters.now) }
{
    let mut places = List::new(alloc);
    'masters: for master in masters {
        let place = another_master(tables, places.as_slice(), master)?;
        places.push(place)?;
    }
    Ok(places)
}

/// The place of a version of a master whose name none before it has.
fn another_master(tables: &Tables, before: &[u32], master: &(Str, u32)) -> Result<u32, Stop>
    requires { length tables.now.masters.items < 2 ^ 31 }
    ensures finds { Finds result (another_master tables.now.masters.items before.now master.now) }
    ensures within { IfOk result (λ place. place < length tables.now.masters.items) }
{
    let rows = tables.masters.as_slice();
    let place = named(rows, &master.0, master.1, Kind::Master)?;
    if has_name(rows, before, master.0.as_str()) {
        return Err(Stop::Refused(Refusal::Twice(master.0.copy()?)));
    }
    Ok(place)
}

/// Whether one of the masters at these places has the name.
fn has_name(masters: &[TextRow], places: &[u32], name: &str) -> bool
    ensures { result ≡ list_any (λ place. bytes_eq (master_name masters.now place) name.now) places.now }
{
    places
        .iter()
        .any(|place| master_name(masters, *place) == name)
}

/// The name of the master at a place; past the last, none.
pub(crate) fn master_name(masters: &[TextRow], place: u32) -> &str
    ensures { result.now ≡ master_name masters.now place }
{
    match masters.get(place as usize) {
        Some(row) => row.name.as_str(),
        None => "",
    }
}

/// Those of so many attributes that are among these, in their order.
fn in_order(alloc: Global, attributes: &[u16], width: u16) -> Result<List<u16>, NoMemory>
    ensures { IfOk result (λ made. made ≡ in_order attributes.now width) }
{
    let mut made = List::new(alloc);
    'attributes: for attribute in 0..width {
        if is_among(attributes, attribute) {
            made.push(attribute)?;
        }
    }
    Ok(made)
}

/// The edition, where it binds to a kit whose index is not too wide.
fn bound_row(
    alloc: Global,
    tables: &Tables,
    rules: Rules,
    row: EditionRow,
) -> Result<EditionRow, Stop>
    requires valid { AreValid (rows_of tables.now) }
    requires rules { rules_at (published_of (rows_of tables.now)) row.rulebook ≡ Some rules }
    requires schema { IsSchema rules.schema }
    requires rulebook { IsRulebook rules.schema rules.rulebook }
    requires masters { AreOthers (published_of (rows_of tables.now)) row.masters }
    requires few { length row.masters ≤ 8 }
    requires folded { AreFolded rules.schema row.folded }
    ensures binds { Finds result (bound_row (published_of (rows_of tables.now)) row) }
    ensures same { IfOk result (λ bound. bound ≡ row) }
{
    let masters = masters_of(alloc, tables, row.masters.as_slice())?;
    narrow(alloc, &Parts { rules, masters }, row.folded.as_slice())?;
    Ok(row)
}

/// The parts bind to a kit whose index is not too wide.
fn narrow(alloc: Global, parts: &Parts, folded: &[u16]) -> Result<(), Stop>
    requires { AreBindable parts.now folded.now }
    ensures { Finds result (narrow parts.now folded.now) }
{
    let rules = &parts.rules;
    match bind(
        alloc,
        &rules.rulebook,
        &rules.schema,
        parts.masters.as_slice(),
        folded,
    ) {
        Ok(kit) => few_entries(kit.entries()),
        Err(fault) => Err(bind_stop(fault)),
    }
}

/// An index has so many entries, and no more than it may. No want of memory is answered.
fn few_entries(entries: u64) -> Result<(), Stop>
    ensures finds { Finds result (unless (nat_le entries MAX_ENTRIES) (BadText reader.Index 1 entries 0)) }
    ensures memory { WantsNone result }
{
    if entries <= MAX_ENTRIES {
        Ok(())
    } else {
        Err(Stop::Refused(Refusal::BadText(Reader::Index, 1, entries, 0)))
    }
}
