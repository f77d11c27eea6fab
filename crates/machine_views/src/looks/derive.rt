//! The rows that a master gives, as a sheet.
ghost use Rattle.std.specs.Prelude.{◌≡◌, ◌+◌, ◌<◌, All, IfOk, map};
ghost use Rattle.desk_base.specs.declared.limits.TheConstants.{MAX_ROWS};
ghost use Rattle.desk_words.specs.Tables.{published_of, rows_of};
ghost use Rattle.machine_workplace.specs.Ready.{IsReady};
ghost use Rattle.machine_core.specs.Deriving.{derived_sheet};
ghost use Rattle.machine_core.specs.Outcomes.{Answers};

use crate::views::named_attributes;
use desk_base::{List, NoMemory, Str, Text};
use desk_words::{DerivedSheet, Tables};
use machine_core::{Stop, derivation_of, derived_rows, shelved};
use machine_workplace::Workplace;
use std::alloc::Global;

/// The rows, counted from 1, that a master of the edition of this name and version gives for pairs of an attribute and
/// a column.
pub fn derived_sheet(
    tables: &Tables,
    workplace: &mut Workplace,
    edition: &Str,
    version: u32,
    master: &Str,
    pairs: &[(Str, Str)],
) -> Result<DerivedSheet, Stop>
    requires ready { IsReady (rows_of tables.now) workplace.old }
    ensures sheet { Answers result
        (derived_sheet (published_of (rows_of tables.now)) edition.now version master.now pairs.now) }
    ensures ready { IsReady (rows_of tables.now) workplace.new }
{
    let derivation = derivation_of(workplace.alloc, tables, edition, version, master, pairs)?;
    let rows = derived_rows(
        workplace.alloc,
        tables,
        &mut workplace.shelf,
        &mut workplace.room,
        &derivation,
    )?;
    let words = shelved(&workplace.shelf, derivation.edition)
        .names
        .attributes
        .as_slice();
    let attributes = named_attributes(workplace.alloc, words, derivation.attributes.as_slice())?;
    let rows = numbered(workplace.alloc, rows)?;
    Ok(DerivedSheet { attributes, rows })
}

/// Rows that are counted from 0, counted from 1.
fn numbered(
    alloc: Global,
    rows: List<(u32, List<Text>)>,
) -> Result<List<(u32, List<Text>)>, NoMemory>
    requires { All (λ row. row.0 < MAX_ROWS) rows }
    ensures { IfOk result (λ made. made ≡ map (λ row. (row.0 + 1, row.1)) rows) }
{
    let mut made = List::new(alloc);
    'rows: for (row, texts) in rows.into_vec() {
        made.push((row + 1, texts))?;
    }
    Ok(made)
}
