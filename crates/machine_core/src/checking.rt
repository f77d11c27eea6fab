//! Check: what publishing a proposal next would come to.
ghost use Rattle.std.specs.Prelude.{◌≡◌, ◌<◌, ◌^◌, length, IfOk};
ghost use Rattle.desk_words.specs.Tables.{published_of, rows_of};
ghost use Rattle.desk_valid.specs.Tallies.{master_cells};
ghost use Rattle.desk_valid.specs.Valid.{AreValid};
ghost use Rattle.machine_core.specs.DeskLook.Check.{checked, edition_fits, fits_of, master_fits, rulebook_fits};
ghost use Rattle.machine_core.specs.DeskLook.Check.{schema_fits};
ghost use Rattle.machine_core.specs.Outcomes.{Finds};

use crate::faults::{read_outline, read_rulebook, read_schema};
use crate::noting::notes;
use crate::saying::says;
use crate::steward::{edition_entries, edition_row, master_row, rulebook_row, schema_row};
use crate::stop::Stop;
use desk_base::{List, Str};
use desk_valid::schema_of;
use desk_words::{Fits, Proposal, Reply, Tables};
use rule_text::rule_names;
use std::alloc::Global;

/// What a proposal would be made to with the notes on it, or its refusal with what is said of it, where the masters so
/// far have so many cells.
pub fn checked(
    alloc: Global,
    tables: &Tables,
    cells: u64,
    proposal: &Proposal,
) -> Result<Reply, Stop>
    requires valid { AreValid (rows_of tables.now) }
    requires cells { cells ≡ master_cells tables.now.masters.items }
    requires bound { cells < 2 ^ 63 }
    ensures { Finds result (checked (published_of (rows_of tables.now)) proposal.now) }
{
    match fits_of(alloc, tables, cells, proposal) {
        Ok(fits) => {
            let notes = notes(alloc, tables, proposal)?;
            Ok(Reply::Fits { fits, notes })
        }
        Err(Stop::Refused(refusal)) => {
            let says = says(alloc, tables, proposal, &refusal)?;
            Ok(Reply::Unfit { refusal, says })
        }
        Err(Stop::NoMemory) => Err(Stop::NoMemory),
    }
}

/// What a proposal would be made to.
fn fits_of(alloc: Global, tables: &Tables, cells: u64, proposal: &Proposal) -> Result<Fits, Stop>
    requires valid { AreValid (rows_of tables.now) }
    requires cells { cells ≡ master_cells tables.now.masters.items }
    requires bound { cells < 2 ^ 63 }
    ensures { Finds result (fits_of (published_of (rows_of tables.now)) proposal.now) }
{
    match proposal {
        Proposal::Schema { body } => schema_fits(alloc, tables, body),
        Proposal::Master { name, body } => master_fits(alloc, tables, cells, name, body),
        Proposal::Rulebook {
            name,
            schema,
            version,
            body,
        } => rulebook_fits(alloc, tables, name, schema, *version, body),
        Proposal::Edition {
            name,
            rulebook,
            masters,
            folded,
        } => edition_fits(
            alloc,
            tables,
            name,
            rulebook,
            masters.as_slice(),
            folded.as_slice(),
        ),
    }
}

/// The schema that would be made, with its attributes.
fn schema_fits(alloc: Global, tables: &Tables, body: &List<u8>) -> Result<Fits, Stop>
    requires { AreValid (rows_of tables.now) }
    ensures { Finds result (schema_fits tables.now.schemas.items body.now) }
{
    let row = schema_row(alloc, tables.schemas.as_slice(), body)?;
    let schema = read_schema(alloc, row.body.as_slice())?;
    Ok(Fits::Schema {
        name: row.name,
        version: row.version,
        attributes: schema.attributes,
    })
}

/// The master that would be made, with its columns and how many rows it has.
fn master_fits(
    alloc: Global,
    tables: &Tables,
    cells: u64,
    name: &Str,
    body: &List<u8>,
) -> Result<Fits, Stop>
    requires valid { AreValid (rows_of tables.now) }
    requires cells { cells ≡ master_cells tables.now.masters.items }
    requires bound { cells < 2 ^ 63 }
    ensures { Finds result (master_fits tables.now.masters.items name.now body.now) }
{
    let row = master_row(alloc, tables.masters.as_slice(), cells, name, body)?;
    let outline = read_outline(alloc, row.body.as_slice())?;
    Ok(Fits::Master {
        name: row.name,
        version: row.version,
        columns: outline.columns,
        rows: u64::from(outline.rows),
    })
}

/// The rulebook that would be made, with the names of its rules.
fn rulebook_fits(
    alloc: Global,
    tables: &Tables,
    name: &Str,
    schema: &Str,
    version: u32,
    body: &List<u8>,
) -> Result<Fits, Stop>
    requires { AreValid (rows_of tables.now) }
    ensures { Finds result
        (rulebook_fits (published_of (rows_of tables.now)) name.now schema.now version body.now) }
{
    let row = rulebook_row(alloc, tables, name, schema, version, body)?;
    let read = schema_of(alloc, tables, row.schema)?;
    let rulebook = read_rulebook(alloc, row.body.as_slice(), &read)?;
    Ok(Fits::Rulebook {
        name: row.name,
        version: row.version,
        rules: rule_names(alloc, rulebook.lines.as_slice())?,
    })
}

/// The edition that would be made, with how many entries its index would have.
fn edition_fits(
    alloc: Global,
    tables: &Tables,
    name: &Str,
    rulebook: &(Str, u32),
    masters: &[(Str, u32)],
    folded: &[Str],
) -> Result<Fits, Stop>
    requires { AreValid (rows_of tables.now) }
    ensures { Finds result
        (edition_fits (published_of (rows_of tables.now)) name.now rulebook.now masters.now folded.now) }
{
    let row = edition_row(alloc, tables, name, rulebook, masters, folded)?;
    let entries = edition_entries(alloc, tables, &row)?;
    Ok(Fits::Edition {
        name: row.name,
        version: row.version,
        entries,
    })
}
