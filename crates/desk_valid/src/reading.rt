//! What published bodies read as, where they read.
ghost use Rattle.std.specs.Prelude.{◌≡◌, ◌≤◌, length, IfOk};
ghost use Rattle.schema_core.specs.Schemas.{IsSchema};
ghost use Rattle.master_rows.specs.Sheet.{read_sheet};
ghost use Rattle.rule_text.specs.Reading.{read_rules};
ghost use Rattle.desk_valid.specs.Readings.{read, schema_in};
ghost use Rattle.desk_valid.specs.ReadTables.{header_in, header_over};

use desk_base::{Grid, MAX_COLUMNS, NoMemory};
use desk_words::{RulebookRow, TextRow};
use master_rows::{Master, Outline, SheetFault};
use rule_text::{RuleFault, Rulebook};
use schema_core::{Schema, SchemaFault};
use std::alloc::Global;

/// A schema, and the rules over it.
#[derive(Drop)]
pub struct Rules {
    pub schema: Schema,
    pub rulebook: Rulebook,
}

/// A master without its rows.
#[derive(Drop)]
pub(crate) struct Header {
    pub(crate) bare: Master,
    /// How many rows the master has.
    pub(crate) rows: u32,
}

/// The schema of a row.
pub(crate) fn schema_in(alloc: Global, row: &TextRow) -> Result<Option<Schema>, NoMemory>
    ensures { IfOk result (λ found. found ≡ schema_in row.now) }
{
    match Schema::read(alloc, row.body.as_slice()) {
        Ok(schema) => Ok(Some(schema)),
        Err(SchemaFault::NoMemory) => Err(NoMemory),
        Err(_) => Ok(None),
    }
}

/// The master of a row.
pub(crate) fn sheet_in(alloc: Global, row: &TextRow) -> Result<Option<Master>, NoMemory>
    ensures { IfOk result (λ found. found ≡ read (read_sheet row.now.body)) }
{
    match Master::read(alloc, row.body.as_slice()) {
        Ok(master) => Ok(Some(master)),
        Err(SheetFault::NoMemory) => Err(NoMemory),
        Err(_) => Ok(None),
    }
}

/// The header of the master of a row, with the number of its rows.
pub(crate) fn header_in(alloc: Global, row: &TextRow) -> Result<Option<Header>, NoMemory>
    ensures { IfOk result (λ found. found ≡ header_in row.now) }
{
    match Master::outline(alloc, row.body.as_slice()) {
        Ok(outline) => Ok(Some(header_of(alloc, outline))),
        Err(SheetFault::NoMemory) => Err(NoMemory),
        Err(_) => Ok(None),
    }
}

/// The master without its rows that has this outline, with their number.
fn header_of(alloc: Global, outline: Outline) -> Header
    requires { length outline.columns ≤ MAX_COLUMNS }
    ensures { result ≡ header_over outline }
{
    let grid = Grid::new(alloc, outline.columns.len() as u16);
    Header {
        bare: Master {
            columns: outline.columns,
            grid,
        },
        rows: outline.rows,
    }
}

/// The rules of a row over a schema.
pub(crate) fn rulebook_in(
    alloc: Global,
    row: &RulebookRow,
    schema: &Schema,
) -> Result<Option<Rulebook>, NoMemory>
    requires { IsSchema schema.now }
    ensures { IfOk result (λ found. found ≡ read (read_rules row.now.body schema.now)) }
{
    match rule_text::read(alloc, row.body.as_slice(), schema) {
        Ok(rulebook) => Ok(Some(rulebook)),
        Err(RuleFault::NoMemory) => Err(NoMemory),
        Err(_) => Ok(None),
    }
}
