//! Whether tables are valid.
ghost use Rattle.std.specs.Prelude.{IfErr, IfOk, OnOk};
ghost use Rattle.desk_words.specs.Tables.{AreTables, rows_of};
ghost use Rattle.desk_valid.specs.FirstDamaged.{IsFirstDamaged};
ghost use Rattle.desk_valid.specs.ReadTables.{AreRead, rows_in};
ghost use Rattle.desk_valid.specs.Refusals.{NamesFirstDamage};
ghost use Rattle.desk_valid.specs.Valid.{AreValid};

use crate::damage::{Bad, Damage};
use crate::read_tables::ReadTables;
use crate::table::{TABLES, Table};
use crate::{batches, clerks, editions, masters, records, regions, rulebooks, schemas, sessions};
use desk_base::NoMemory;
use desk_words::Tables;
use std::alloc::Global;

/// Finds the tables valid, or names the first damaged row. Each published body is read once.
pub fn valid(alloc: Global, tables: &Tables) -> Result<(), Bad>
    requires { AreTables (rows_of tables.now) }
    ensures valid { OnOk result (AreValid (rows_of tables.now)) }
    ensures damaged { IfErr result (NamesFirstDamage (rows_of tables.now)) }
{
    let read = ReadTables::new(alloc, tables)?;
    'tables: for table in &TABLES {
        if let Some(place) = first_damaged(alloc, &read, *table)? {
            return Err(Bad::Damaged(Damage {
                table: table.number(),
                row: place + 1,
            }));
        }
    }
    Ok(())
}

/// The first damaged row of a table.
fn first_damaged(
    alloc: Global,
    read: &ReadTables<'_>,
    table: Table,
) -> Result<Option<u64>, NoMemory>
    requires read { AreRead read.now }
    requires tables { AreTables (rows_in read.now) }
    ensures { IfOk result (IsFirstDamaged (rows_in read.now) table) }
{
    match table {
        Table::Clerks => Ok(clerks::first_damaged(read.tables)),
        Table::Schemas => Ok(schemas::first_damaged(read)),
        Table::Masters => Ok(masters::first_damaged(read)),
        Table::Rulebooks => Ok(rulebooks::first_damaged(read)),
        Table::Editions => editions::first_damaged(alloc, read),
        Table::Regions => Ok(regions::first_damaged(read)),
        Table::Sessions => Ok(sessions::first_damaged(read)),
        Table::Records => records::first_damaged(alloc, read.tables),
        Table::Batches => Ok(batches::first_damaged(read.tables)),
    }
}
