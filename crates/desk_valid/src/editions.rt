//! Whether the rows of the editions are what they have to be.
ghost use Rattle.std.specs.Prelude.{◌≡◌, ◌↔◌, ◌<◌, ◌≤◌, All, Any, length, IfOk, IfSome, IsTrue};
ghost use Rattle.rule_text.specs.Binding.{AreFolded, AreMasters};
ghost use Rattle.rule_text.specs.Rulebooks.{IsRulebook};
ghost use Rattle.schema_core.specs.Schemas.{IsSchema};
ghost use Rattle.desk_words.specs.Tables.{published_of, rows_of};
ghost use Rattle.desk_valid.specs.declared.table.Table.TheVariants.{Editions};
ghost use Rattle.desk_valid.specs.Bare.{BindNarrowly};
ghost use Rattle.desk_valid.specs.Bindings.{parts_of};
ghost use Rattle.desk_valid.specs.FirstDamaged.{IsFirstDamaged};
ghost use Rattle.desk_valid.specs.NamedParts.{NamesParts, name_at};
ghost use Rattle.desk_valid.specs.ReadTables.{AreRead, published_in, rows_in};
ghost use Rattle.desk_valid.specs.Rows.Edition.{AreNamedApart, IsBinding, IsEditionRow};

use crate::attributes::{are_below, ascend};
use crate::bare::{Bare, bare_at, entries_over};
use crate::read_tables::ReadTables;
use crate::reading::Rules;
use crate::versions::is_version;
use desk_base::{MAX_EDITIONS, MAX_ENTRIES, MAX_MASTERS, NoMemory};
use desk_words::{EditionRow, Tables, TextRow};
use rule_text::{BindFault, bind};
use std::alloc::Global;

/// The first damaged row of the editions.
pub(crate) fn first_damaged(alloc: Global, read: &ReadTables<'_>) -> Result<Option<u64>, NoMemory>
    requires { AreRead read.now }
    ensures { IfOk result (IsFirstDamaged (rows_in read.now) Editions) }
{
    'rows: for (place, row) in read.tables.editions.as_slice().iter().enumerate() {
        let good = is_edition_row(alloc, read, place, row)?;
        if !good {
            return Ok(Some(place as u64));
        }
    }
    Ok(None)
}

fn is_edition_row(
    alloc: Global,
    read: &ReadTables<'_>,
    place: usize,
    row: &EditionRow,
) -> Result<bool, NoMemory>
    requires read { AreRead read.now }
    requires place { place ≤ length (published_in read.now).editions }
    ensures { IfOk result (λ good. IsTrue good ↔ IsEditionRow (published_in read.now) place row.now) }
{
    if !names_parts(read.tables, place, row) {
        return Ok(false);
    }
    binds(alloc, read, place, row)
}

/// Whether all is well with an edition before it is bound.
fn names_parts(tables: &Tables, place: usize, row: &EditionRow) -> bool
    requires { place ≤ length tables.now.editions.items }
    ensures { IsTrue result ↔ NamesParts (published_of (rows_of tables.now)) place row.now }
{
    let masters = row.masters.as_slice();
    place < MAX_EDITIONS
        && is_version(tables.editions.as_slice(), place, row)
        && (row.rulebook as usize) < tables.rulebooks.len()
        && masters.len() <= MAX_MASTERS
        && are_there(tables, masters)
        && are_named_apart(tables, masters)
        && ascend(row.folded.as_slice())
}

/// Whether there is a master at each of these places.
fn are_there(tables: &Tables, places: &[u32]) -> bool
    ensures { IsTrue result ↔ All (λ place. place < length (published_of (rows_of tables.now)).masters) places.now }
{
    let count = tables.masters.len();
    places.iter().all(|place| (*place as usize) < count)
}

/// Whether the masters at these places have another name each.
fn are_named_apart(tables: &Tables, places: &[u32]) -> bool
    ensures { IsTrue result ↔ AreNamedApart (published_of (rows_of tables.now)) places.now }
{
    'places: for (index, place) in places.iter().enumerate() {
        if has_same_name(tables, &places[index + 1..], *place) {
            return false;
        }
    }
    true
}

/// Whether the master at one of these places has the name of this one.
fn has_same_name(tables: &Tables, places: &[u32], place: u32) -> bool
    ensures { IsTrue result
        ↔ Any (λ other. name_at (published_of (rows_of tables.now)) place
        ≡ name_at (published_of (rows_of tables.now)) other) places.now }
{
    places
        .iter()
        .any(|other| are_same_name(tables, place, *other))
}

/// Whether the masters at two places have the same name.
fn are_same_name(tables: &Tables, one: u32, other: u32) -> bool
    ensures { IsTrue result
        ↔ (name_at (published_of (rows_of tables.now)) one ≡ name_at (published_of (rows_of tables.now)) other) }
{
    let masters = tables.masters.as_slice();
    let Some(one) = masters.get(one as usize) else {
        return masters.get(other as usize).is_none();
    };
    let Some(other) = masters.get(other as usize) else {
        return false;
    };
    has_name_of(one, other)
}

fn has_name_of(one: &TextRow, other: &TextRow) -> bool
    ensures { IsTrue result ↔ (one.now.name ≡ other.now.name) }
{
    one.name.as_str() == other.name.as_str()
}

/// Whether the parts of an edition bind as they have to, where each reads.
fn binds(
    alloc: Global,
    read: &ReadTables<'_>,
    place: usize,
    row: &EditionRow,
) -> Result<bool, NoMemory>
    requires read { AreRead read.now }
    requires parts { NamesParts (published_in read.now) place row.now }
    ensures { IfOk result (λ binds. IsTrue binds
        ↔ IfSome (parts_of (published_in read.now) row.now) (λ parts. IsBinding parts row.now.folded)) }
{
    let Some(rules) = read.rules_at(row.rulebook as usize) else {
        return Ok(true);
    };
    let Some(bare) = bare_at(alloc, read, row.masters.as_slice())? else {
        return Ok(true);
    };
    let folded = row.folded.as_slice();
    if !are_below(folded, rules.schema.attributes.len()) {
        return Ok(false);
    }
    bind_narrowly(alloc, rules, &bare, folded)
}

/// Whether rules bind to a kit whose index is not too wide.
fn bind_narrowly(
    alloc: Global,
    rules: &Rules,
    bare: &Bare,
    folded: &[u16],
) -> Result<bool, NoMemory>
    requires schema { IsSchema rules.now.schema }
    requires rulebook { IsRulebook rules.now.schema rules.now.rulebook }
    requires masters { AreMasters bare.now.masters }
    requires counts { length bare.now.counts ≡ length bare.now.masters }
    requires folded { AreFolded rules.now.schema folded.now }
    ensures { IfOk result (λ narrow. IsTrue narrow ↔ BindNarrowly rules.now bare.now folded.now) }
{
    let masters = bare.masters.as_slice();
    match bind(alloc, &rules.rulebook, &rules.schema, masters, folded) {
        Ok(kit) => Ok(entries_over(&kit, bare.counts.as_slice()) <= MAX_ENTRIES),
        Err(BindFault::NoMemory) => Err(NoMemory),
        Err(_) => Ok(false),
    }
}
