//! Rows of the SQL table read back as tables.
ghost use Rattle.std.specs.Prelude.{◌≡◌, ◌<◌, ◌^◌, ◌∷◌, Some, None, IfOk, IsErrOf, length, map};
ghost use Rattle.desk_words.specs.Tables.{Rows, lists_of, rows_of};
ghost use Rattle.desk_packing.specs.Lines.{AreByKey, line_of};
ghost use Rattle.desk_packing.specs.Reading.{list_in, lists_in, rows_in_order, tables_in, version_in};
ghost use Rattle.desk_packing.specs.Stands.{StandAs, StandFor};

use crate::error::UnpackFault;
use crate::kinds::{
    BATCHES, CLERKS, EDITIONS, MASTERS, RECORDS, REGIONS, RULEBOOKS, SCHEMAS, SESSIONS, VERSION,
};
use crate::line::PackedRow;
use crate::row::{TableRow, is_of, unpack_row};
use desk_base::Room;
use desk_words::Tables;
use std::alloc::Global;

/// Tables that were read back.
#[derive(Debug, Drop)]
pub struct Unpacked {
    pub tables: Tables,
    /// Whether the rows are of the version from before editions had folded attributes.
    pub is_old: bool,
}

/// Reads back the tables that the rows stand for. Rows in the order of their keys are damaged exactly where they stand
/// for none; what stands in another order may be called damaged too.
pub fn unpack(alloc: Global, rows: &[PackedRow]) -> Result<Unpacked, UnpackFault>
    ensures stand { IfOk result (λ found. StandAs found.is_old (map line_of rows.now) (rows_of found.tables)) }
    ensures damaged { IsErrOf result UnpackFault.Damaged → AreByKey (map line_of rows.now)
        → (tables : Rows) → StandFor (map line_of rows.now) tables → ⊥ }
{
    match rows {
        [] => Ok(Unpacked {
            tables: Tables::empty(alloc)?,
            is_old: false,
        }),
        [first, rest @ ..] => unpack_following(alloc, first, rest),
    }
}

/// Reads back the tables of rows that stand after the one of the version.
fn unpack_following(
    alloc: Global,
    first: &PackedRow,
    rest: &[PackedRow],
) -> Result<Unpacked, UnpackFault>
    ensures version { IfOk result (λ found. version_in (line_of first.now) ≡ Some found.is_old) }
    ensures tables { IfOk result (λ found.
        tables_in found.is_old (map line_of rest.now) ≡ Some (rows_of found.tables)) }
    ensures damaged { IsErrOf result UnpackFault.Damaged
        → rows_in_order (line_of first.now ∷ map line_of rest.now) ≡ None }
{
    let is_old = unpack_version(first)?;
    let tables = unpack_tables(alloc, is_old, rest)?;
    Ok(Unpacked { tables, is_old })
}

/// Whether the row says that the others are of the old version.
fn unpack_version(row: &PackedRow) -> Result<bool, UnpackFault>
    ensures read { IfOk result (λ is_old. version_in (line_of row.now) ≡ Some is_old) }
    ensures damaged { IsErrOf result UnpackFault.Damaged → version_in (line_of row.now) ≡ None }
{
    if !is_of(VERSION, 0, row) || row.place != 0 {
        return Err(UnpackFault::Damaged);
    }
    match row.body.as_slice() {
        [1] => Ok(true),
        [2] => Ok(false),
        _ => Err(UnpackFault::Damaged),
    }
}

/// Reads back the tables of all rows but the one of the version.
fn unpack_tables(alloc: Global, is_old: bool, rows: &[PackedRow]) -> Result<Tables, UnpackFault>
    ensures read { IfOk result (λ tables. tables_in is_old (map line_of rows.now) ≡ Some (rows_of tables)) }
    ensures damaged { IsErrOf result UnpackFault.Damaged → tables_in is_old (map line_of rows.now) ≡ None }
{
    let (clerks, rest) = take_list(alloc, is_old, CLERKS, 0, rows)?;
    let (schemas, rest) = take_list(alloc, is_old, SCHEMAS, 0, rest)?;
    let (masters, rest) = take_list(alloc, is_old, MASTERS, 0, rest)?;
    let (rulebooks, rest) = take_list(alloc, is_old, RULEBOOKS, 0, rest)?;
    let (editions, rest) = take_list(alloc, is_old, EDITIONS, 0, rest)?;
    let (regions, rest) = take_list(alloc, is_old, REGIONS, 0, rest)?;
    let (sessions, rest) = take_lists(alloc, is_old, SESSIONS, clerks.len(), rest)?;
    let (records, rest) = take_lists(alloc, is_old, RECORDS, clerks.len(), rest)?;
    let (batches, rest) = take_lists(alloc, is_old, BATCHES, clerks.len(), rest)?;
    let no_clerk = clerks.is_empty();
    let is_whole = rest.is_empty();
    if no_clerk {
        return Err(UnpackFault::Damaged);
    }
    if is_whole {
        return Ok(Tables {
            clerks,
            schemas,
            masters,
            rulebooks,
            editions,
            regions,
            sessions,
            records,
            batches,
        });
    }
    Err(UnpackFault::Damaged)
}

/// Reads the rows of a list that stand in front, and answers them with the rows after them.
fn take_list<T: TableRow + Drop>(
    alloc: Global,
    is_old: bool,
    kind: u32,
    owner: u32,
    rows: &[PackedRow],
) -> Result<(Room<T>, &[PackedRow]), UnpackFault>
    ensures read { IfOk result (λ found. list_in (T.format_in is_old) kind owner 0 (map line_of rows.now)
        ≡ Some (found.0.items, map line_of found.1.now)) }
    ensures short { IfOk result (λ found. length found.0.items < 2 ^ 31) }
    ensures damaged { IsErrOf result UnpackFault.Damaged
        → list_in (T.format_in is_old) kind owner 0 (map line_of rows.now) ≡ None }
{
    let mut items = Room::new(alloc);
    'rows: for (place, row) in rows.iter().enumerate() {
        if !is_of(kind, owner, row) {
            return Ok((items, &rows[place..]));
        }
        items.push(unpack_row(alloc, is_old, place, row)?)?;
    }
    Ok((items, &rows[rows.len()..]))
}

/// Reads the clerks' own lists of one kind, a list for each clerk, that stand in front, and answers them with the rows
/// after them.
fn take_lists<T: TableRow + Drop>(
    alloc: Global,
    is_old: bool,
    kind: u32,
    clerks: usize,
    rows: &[PackedRow],
) -> Result<(Room<Room<T>>, &[PackedRow]), UnpackFault>
    requires { clerks < 2 ^ 31 }
    ensures read { IfOk result (λ found. lists_in (T.format_in is_old) kind 0 clerks (map line_of rows.now)
        ≡ Some (lists_of found.0, map line_of found.1.now)) }
    ensures damaged { IsErrOf result UnpackFault.Damaged
        → lists_in (T.format_in is_old) kind 0 clerks (map line_of rows.now) ≡ None }
{
    let mut lists = Room::new(alloc);
    let mut left = rows;
    'clerks: for clerk in 0..clerks {
        let (list, rest) = take_list(alloc, is_old, kind, clerk as u32, left)?;
        lists.push(list)?;
        left = rest;
    }
    Ok((lists, left))
}
