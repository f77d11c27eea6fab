//! What an edition names.
ghost use Rattle.std.specs.Prelude.{◌≡◌, map, IfOk};
ghost use Rattle.desk_words.specs.Tables.{published_of, rows_of};
ghost use Rattle.desk_valid.specs.Bindings.{parts_of};
ghost use Rattle.desk_valid.specs.Readings.{all_of, master_at, rules_at, rules_in};

use crate::reading::{Rules, rulebook_in, schema_in, sheet_in};
use desk_base::{Duplicate, List, NoMemory, Text};
use desk_words::{EditionRow, RulebookRow, Tables};
use master_rows::Master;
use std::alloc::Global;

/// The rules of an edition, and its masters under their names.
#[derive(Drop)]
pub struct Parts {
    pub rules: Rules,
    pub masters: List<(Text, Master)>,
}

/// The parts of an edition, where each reads.
pub(crate) fn parts_of(
    alloc: Global,
    tables: &Tables,
    row: &EditionRow,
) -> Result<Option<Parts>, NoMemory>
    ensures { IfOk result (λ found. found ≡ parts_of (published_of (rows_of tables.now)) row.now) }
{
    let Some(rules) = rules_at(alloc, tables, row.rulebook)? else {
        return Ok(None);
    };
    let Some(masters) = masters_at(alloc, tables, row.masters.as_slice())? else {
        return Ok(None);
    };
    Ok(Some(Parts { rules, masters }))
}

/// The rules at a place.
pub(crate) fn rules_at(
    alloc: Global,
    tables: &Tables,
    place: u32,
) -> Result<Option<Rules>, NoMemory>
    ensures { IfOk result (λ found. found ≡ rules_at (published_of (rows_of tables.now)) place) }
{
    match tables.rulebooks.as_slice().get(place as usize) {
        Some(row) => rules_in(alloc, tables, row),
        None => Ok(None),
    }
}

/// The rules of a row, over the schema that it names.
fn rules_in(alloc: Global, tables: &Tables, row: &RulebookRow) -> Result<Option<Rules>, NoMemory>
    ensures { IfOk result (λ found. found ≡ rules_in (published_of (rows_of tables.now)) row.now) }
{
    let Some(named) = tables.schemas.as_slice().get(row.schema as usize) else {
        return Ok(None);
    };
    let Some(schema) = schema_in(alloc, named)? else {
        return Ok(None);
    };
    let Some(rulebook) = rulebook_in(alloc, row, &schema)? else {
        return Ok(None);
    };
    Ok(Some(Rules { schema, rulebook }))
}

/// The masters at these places, where each reads.
pub(crate) fn masters_at(
    alloc: Global,
    tables: &Tables,
    places: &[u32],
) -> Result<Option<List<(Text, Master)>>, NoMemory>
    ensures { IfOk result (λ found. found ≡ all_of (map (master_at (published_of (rows_of tables.now))) places.now)) }
{
    let mut masters = List::new(alloc);
    'places: for place in places {
        let Some(master) = master_at(alloc, tables, *place)? else {
            return Ok(None);
        };
        masters.push(master)?;
    }
    Ok(Some(masters))
}

/// The master at a place, under its name.
fn master_at(alloc: Global, tables: &Tables, place: u32) -> Result<Option<(Text, Master)>, NoMemory>
    ensures { IfOk result (λ found. found ≡ master_at (published_of (rows_of tables.now)) place) }
{
    let Some(row) = tables.masters.as_slice().get(place as usize) else {
        return Ok(None);
    };
    let Some(master) = sheet_in(alloc, row)? else {
        return Ok(None);
    };
    Ok(Some((row.name.copy()?, master)))
}
