//! The text of a dump.
ghost use Rattle.std.specs.Prelude.{◌≡◌, [], ◌∷◌, OnOk, IfOk};
ghost use Rattle.desk_words.specs.Tables.{lists_of, rows_of};
ghost use Rattle.desk_dump.specs.Dumps.{dump_of, lines_from, lists_lines, table_lines};
ghost use Rattle.desk_dump.specs.Writing.{with_lines};

use crate::writing::{DumpRow, DumpText};
use desk_base::{List, NoMemory, Room};
use desk_words::Tables;
use std::alloc::Global;

/// All rows of the tables as lines of JSON, a line a row (`docs/formats.md`, *Dumps*).
pub fn dump_text(alloc: Global, tables: &Tables) -> Result<List<u8>, NoMemory>
    ensures { IfOk result (λ text. text ≡ dump_of (rows_of tables.now)) }
{
    let mut text = DumpText::new(alloc);
    text.begin()?;
    write_table(&mut text, "clerk", tables.clerks.as_slice())?;
    write_table(&mut text, "schema", tables.schemas.as_slice())?;
    write_table(&mut text, "master", tables.masters.as_slice())?;
    write_table(&mut text, "rulebook", tables.rulebooks.as_slice())?;
    write_table(&mut text, "edition", tables.editions.as_slice())?;
    write_table(&mut text, "region", tables.regions.as_slice())?;
    write_lists(&mut text, "session", &tables.sessions)?;
    write_lists(&mut text, "record", &tables.records)?;
    write_lists(&mut text, "batch", &tables.batches)?;
    text.end()?;
    Ok(text.into_bytes())
}

/// Writes the lines of a table, whose rows are of this kind.
fn write_table<R: DumpRow>(text: &mut DumpText, kind: &str, rows: &[R]) -> Result<(), NoMemory>
    ensures { OnOk result (text.new ≡ with_lines text.old (table_lines kind.now R.fields rows.now)) }
{
    'rows: for (place, row) in rows.iter().enumerate() {
        text.row(kind, &[place as u64], row)?;
    }
    Ok(())
}

/// Writes the lines of the clerks' own lists, whose rows are of this kind.
fn write_lists<R: DumpRow>(
    text: &mut DumpText,
    kind: &str,
    lists: &Room<Room<R>>,
) -> Result<(), NoMemory>
    ensures { OnOk result (text.new ≡ with_lines text.old (lists_lines kind.now R.fields (lists_of lists.now))) }
{
    'lists: for (clerk, list) in lists.as_slice().iter().enumerate() {
        write_list(text, kind, clerk as u64, list.as_slice())?;
    }
    Ok(())
}

/// Writes the lines of the list of a clerk, whose rows are of this kind.
fn write_list<R: DumpRow>(
    text: &mut DumpText,
    kind: &str,
    clerk: u64,
    rows: &[R],
) -> Result<(), NoMemory>
    ensures { OnOk result (text.new ≡ with_lines text.old (lines_from kind.now R.fields (clerk ∷ []) 0 rows.now)) }
{
    'rows: for (place, row) in rows.iter().enumerate() {
        text.row(kind, &[clerk, place as u64], row)?;
    }
    Ok(())
}
