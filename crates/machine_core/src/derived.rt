//! Rows that a master of an edition gives.
ghost use Rattle.std.specs.Prelude.{◌≡◌, ◌<◌, find, length, IfOk, OnOk, Ok};
ghost use Rattle.std.specs.Str.{bytes_eq};
ghost use Rattle.desk_words.specs.Tables.{published_of, rows_of};
ghost use Rattle.desk_valid.specs.Valid.{AreValid};
ghost use Rattle.master_rows.specs.Master.{IsMaster};
ghost use Rattle.machine_core.specs.Checked.{Gives};
ghost use Rattle.machine_core.specs.Deriving.{IsDerivable, another_master_column, derivation_of, derived_rows};
ghost use Rattle.machine_core.specs.Deriving.{master_of, places_of};
ghost use Rattle.machine_core.specs.Outcomes.{Finds};
ghost use Rattle.machine_core.specs.Shelves.{AreHeld, IsFirst, IsFullRoom};
ghost use Rattle.machine_core.specs.Steward.AddEdition.{master_name};
ghost use Rattle.machine_core.specs.Views.{edition_at};

use crate::attributes::{another_attribute, is_among};
use crate::derivation::Derivation;
use crate::faults::read_master;
use crate::finding::named;
use crate::holding::{hold, shelved};
use crate::steward::master_name;
use crate::stop::Stop;
use crate::words::words_of;
use desk_base::{Duplicate, List, NoMemory, Steps, Str, Text, place_of};
use desk_words::{Kind, Refusal, Tables, TextRow};
use fix_engine::Work;
use master_index::Shelf;
use master_rows::Master;
use region_derive::derive;
use std::alloc::Global;

/// What a derivation is asked of: the edition of this name and version, its master of this name, and pairs of an
/// attribute and a column.
pub fn derivation_of(
    alloc: Global,
    tables: &Tables,
    edition: &Str,
    version: u32,
    master: &Str,
    pairs: &[(Str, Str)],
) -> Result<Derivation, Stop>
    requires { AreValid (rows_of tables.now) }
    ensures finds { Finds result
        (derivation_of (published_of (rows_of tables.now)) edition.now version master.now pairs.now) }
    ensures derivable { IfOk result (IsDerivable (published_of (rows_of tables.now))) }
{
    let place = named(tables.editions.as_slice(), edition, version, Kind::Edition)?;
    let words = words_of(alloc, tables, place)?;
    let sheet = master_of(alloc, tables, place, master)?;
    let (words, names) = (words.as_slice(), sheet.columns.as_slice());
    let (attributes, columns) = places_of(alloc, words, names, pairs)?;
    Ok(Derivation {
        edition: place,
        grid: sheet.grid,
        attributes,
        columns,
    })
}

/// The master of this name among those of the edition at a place, counted from 0.
fn master_of(alloc: Global, tables: &Tables, edition: u32, name: &Str) -> Result<Master, Stop>
    requires valid { AreValid (rows_of tables.now) }
    requires edition { edition < length tables.now.editions.items }
    ensures finds { Finds result (master_of (published_of (rows_of tables.now))
        (edition_at (published_of (rows_of tables.now)) edition) name.now) }
    ensures sound { IfOk result IsMaster }
{
    let row = &tables.editions.as_slice()[edition as usize];
    let places = row.masters.as_slice();
    let masters = tables.masters.as_slice();
    match place_named(masters, places, name.as_str()) {
        Some(place) => {
            // In valid tables it reads.
            let found = &masters[place as usize];
            read_master(alloc, found.body.as_slice())
        }
        None => Err(Stop::Refused(Refusal::NoSuch(Kind::Master))),
    }
}

/// The first of these places at which a master of the name stands.
fn place_named(masters: &[TextRow], places: &[u32], name: &str) -> Option<u32>
    ensures { result ≡ find (λ place. bytes_eq (master_name masters.now place) name.now) places.now }
{
    places
        .iter()
        .copied()
        .find(|place| master_name(masters, *place) == name)
}

/// The places of pairs of an attribute and a column: those of the attributes and those of the columns, in their order.
/// None stands twice.
fn places_of(
    alloc: Global,
    words: &[Text],
    names: &[Text],
    pairs: &[(Str, Str)],
) -> Result<(List<u16>, List<u16>), Stop>
    requires words { length words.now < 65536 }
    requires names { length names.now < 65536 }
    ensures { Finds result (places_of words.now names.now pairs.now) }
{
    let mut attributes = List::new(alloc);
    let mut columns = List::new(alloc);
    'pairs: for pair in pairs {
        let attribute = another_attribute(words, attributes.as_slice(), &pair.0)?;
        let column = another_master_column(names, columns.as_slice(), &pair.1)?;
        attributes.push(attribute)?;
        columns.push(column)?;
    }
    Ok((attributes, columns))
}

/// The place of a column of a master that is none of those before it.
fn another_master_column(names: &[Text], before: &[u16], name: &Str) -> Result<u16, Stop>
    requires { length names.now < 65536 }
    ensures { Finds result (another_master_column names.now before.now name.now) }
{
    let Some(place) = place_of(names, name.as_str()) else {
        return Err(Stop::Refused(Refusal::NoColumn(name.copy()?)));
    };
    if is_among(before, place as u16) {
        return Err(Stop::Refused(Refusal::Twice(name.copy()?)));
    }
    Ok(place as u16)
}

/// The rows that a derivation gives, counted from 0, each with its texts. Its edition comes first on the shelf.
pub fn derived_rows(
    alloc: Global,
    tables: &Tables,
    shelf: &mut Shelf,
    work: &mut Work,
    derivation: &Derivation,
) -> Result<List<(u32, List<Text>)>, NoMemory>
    requires valid { AreValid (rows_of tables.now) }
    requires held { AreHeld (published_of (rows_of tables.now)) shelf.old }
    requires room { IsFullRoom work.old }
    requires derivable { IsDerivable (published_of (rows_of tables.now)) derivation.now }
    ensures rows { IfOk result
        (λ rows. Gives (derived_rows (published_of (rows_of tables.now)) derivation.now) (Ok rows)) }
    ensures first { OnOk result (IsFirst derivation.now.edition shelf.new) }
    ensures held { AreHeld (published_of (rows_of tables.now)) shelf.new }
    ensures room { IsFullRoom work.new }
{
    hold(alloc, tables, shelf, derivation.edition)?;
    let book = &shelved(shelf, derivation.edition).book;
    derive(
        alloc,
        work,
        book,
        &derivation.grid,
        derivation.attributes.as_slice(),
        derivation.columns.as_slice(),
        &mut Steps::new(()),
    )
}
