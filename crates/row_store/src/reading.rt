//! All rows are read.
ghost use Rattle.std.specs.Prelude.{◌≡◌, ◌≢◌, false, List, map, None, IsTrue, IfErr, IfOk, OnOk};
ghost use Rattle.std.specs.List.{AllByRecursion, AllZip, Any};
ghost use Rattle.desk_packing.specs.Lines.{Line, line_of};
ghost use Rattle.sqlite.specs.Held.{state};
ghost use Rattle.sqlite.specs.State.{HasCleanDisk};
ghost use Rattle.row_store.specs.Calls.{Becomes, GoesOn, Lasts, Leaves, Stays};
ghost use Rattle.row_store.specs.Refusals.{IsHalted, IsNoLine, IsShort, IsStopped, no_memory};
ghost use Rattle.row_store.specs.Stored.{IsLineRow, Reads, Shows, Stands};
ghost use Rattle.row_store.specs.Table.{is_desk};

use crate::rest::at_rest;
use desk_base::List;
use desk_packing::PackedRow;
use sqlite::{Alter, Connection, Error, Row};
use std::alloc::Global;

/// The rows of the table, in the order of kind, owner and place. A cell that is no row's is an error. Nothing is
/// changed.
pub fn all_rows<S: Alter>(conn: &mut Connection<S>) -> Result<List<PackedRow>, Error>
    requires { HasCleanDisk (state S.Store conn.old) → IsTrue (is_desk (state S.Store conn.old).now.schema) }
    ensures read { IfOk result (λ rows. Becomes (Reads (map line_of rows)) (state S.Store conn.old)
        (state S.Store conn.new)) }
    ensures unchanged { Stays (state S.Store conn.old) (state S.Store conn.new) }
    ensures crash { Leaves (λ _ _. ⊥) (state S.Store conn.old) (state S.Store conn.new) }
    ensures autocommit { conn.old.in_transaction ≡ false → conn.new.in_transaction ≡ false }
    ensures lasts { OnOk result (Lasts (state S.Store conn.new)) }
    ensures goes_on { GoesOn (state S.Store conn.old) (state S.Store conn.new) }
    ensures cause { IfErr result (λ e. e ≢ no_memory → conn.old.in_transaction ≡ false
        → conn.old.step_limit ≡ None → HasCleanDisk (state S.Store conn.new)
        → (lines : List Line) → AllByRecursion IsShort lines → Stands (state S.Store conn.old).now lines
        → IsHalted (state S.Store conn.old) (state S.Store conn.new)) }
{
    let rows = shown_rows(conn)?;
    Ok(List::from_vec(lines_in(*rows.allocator(), &rows)?))
}

/// The rows of the answer, each with its rowid.
fn shown_rows<S: Alter>(conn: &mut Connection<S>) -> Result<Vec<Row>, Error>
    requires { HasCleanDisk (state S.Store conn.old) → IsTrue (is_desk (state S.Store conn.old).now.schema) }
    ensures shown { IfOk result (λ rows. Becomes (Shows rows.items) (state S.Store conn.old) (state S.Store conn.new)) }
    ensures unchanged { Stays (state S.Store conn.old) (state S.Store conn.new) }
    ensures crash { Leaves (λ _ _. ⊥) (state S.Store conn.old) (state S.Store conn.new) }
    ensures autocommit { conn.old.in_transaction ≡ false → conn.new.in_transaction ≡ false }
    ensures lasts { OnOk result (Lasts (state S.Store conn.new)) }
    ensures goes_on { GoesOn (state S.Store conn.old) (state S.Store conn.new) }
    ensures cause { IfErr result (λ e. e ≢ no_memory → conn.old.in_transaction ≡ false
        → HasCleanDisk (state S.Store conn.new)
        → IsStopped (state S.Store conn.old) (state S.Store conn.new)) }
{
    at_rest(conn)?;
    conn.query_all(
        "SELECT rowid, kind, owner, place, body FROM desk_rows ORDER BY kind, owner, place",
        &[],
    )
}

/// The rows that rows of an answer are.
fn lines_in(alloc: Global, rows: &[Row]) -> Result<Vec<PackedRow>, Error>
    ensures lines { IfOk result (λ lines. AllZip IsLineRow rows.now (map line_of lines.items)) }
    ensures cause { IfErr result (λ e. e ≢ no_memory → Any IsNoLine rows.now) }
{
    let mut lines = Vec::new(alloc);
    'rows: for row in rows {
        lines.push(line_in(row)?)?;
    }
    Ok(lines)
}

/// The row that a row of an answer is.
fn line_in(row: &Row) -> Result<PackedRow, Error>
    ensures line { IfOk result (λ line. IsLineRow row.now (line_of line)) }
    ensures cause { IfErr result (λ e. e ≢ no_memory → IsNoLine row.now) }
{
    let _id: i64 = row.get(0)?;
    let kind: u32 = row.get(1)?;
    let owner: u32 = row.get(2)?;
    let place: u32 = row.get(3)?;
    let body: Vec<u8> = row.get(4)?;
    Ok(PackedRow {
        kind,
        owner,
        place,
        body: List::from_vec(body),
    })
}
