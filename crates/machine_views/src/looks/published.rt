//! Published: what stands, by its names.
ghost use Rattle.std.specs.Prelude.{◌≡◌, IfOk, map};
ghost use Rattle.desk_words.specs.Tables.{rows_of};
ghost use Rattle.desk_valid.specs.Valid.{AreValid};
ghost use Rattle.machine_core.specs.DeskLook.Published.{catalogue_of};

use desk_base::{Duplicate, List, NoMemory, Text};
use desk_valid::Versioned;
use desk_words::{Catalogue, ClerkRow, Tables};
use std::alloc::Global;

/// The clerks with the numbers of their last writes, and what was published by its names and versions.
pub fn catalogue(alloc: Global, tables: &Tables) -> Result<Catalogue, NoMemory>
    requires { AreValid (rows_of tables.now) }
    ensures { IfOk result (λ catalogue. catalogue ≡ catalogue_of (rows_of tables.now)) }
{
    let callers = tables.clerks.as_slice();
    Ok(Catalogue {
        clerks: last_writes(alloc, &callers[1..])?,
        last: callers[0].last,
        schemas: versions(alloc, tables.schemas.as_slice())?,
        masters: versions(alloc, tables.masters.as_slice())?,
        rulebooks: versions(alloc, tables.rulebooks.as_slice())?,
        editions: versions(alloc, tables.editions.as_slice())?,
    })
}

/// Clerks with the numbers of their last accepted writes.
fn last_writes(alloc: Global, clerks: &[ClerkRow]) -> Result<List<(Text, u64)>, NoMemory>
    ensures { IfOk result (λ writes. writes ≡ map (λ row. (row.name, row.last)) clerks.now) }
{
    let mut writes = List::new(alloc);
    'clerks: for clerk in clerks {
        writes.push((clerk.name.copy()?, clerk.last))?;
    }
    Ok(writes)
}

/// Rows by their names and versions.
fn versions<T: Versioned>(alloc: Global, rows: &[T]) -> Result<List<(Text, u32)>, NoMemory>
    ensures { IfOk result (λ named. named ≡ map (λ row. (T.name_of row, T.version_of row)) rows.now) }
{
    let mut named = List::new(alloc);
    'rows: for row in rows {
        named.push(version_of(row)?)?;
    }
    Ok(named)
}

/// A row by its name and version.
pub(crate) fn version_of<T: Versioned>(row: &T) -> Result<(Text, u32), NoMemory>
    ensures { IfOk result (λ named. named ≡ (T.name_of row.now, T.version_of row.now)) }
{
    Ok((row.name().copy()?, row.version()))
}
