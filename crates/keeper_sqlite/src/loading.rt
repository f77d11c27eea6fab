//! The tables are read, and made where the table is missing.
ghost use Rattle.std.specs.Prelude.{◌≡◌, false, map, None, IfOk, IsErrOf, OnOk, OnErr, IsTrue};
ghost use Rattle.desk_packing.specs.Lines.{line_of};
ghost use Rattle.desk_packing.specs.Shapes.{shape_of};
ghost use Rattle.desk_words.specs.Tables.{AreTables, Rows, rows_of};
ghost use Rattle.desk_packing.specs.Stands.{StandAs, StandFor};
ghost use Rattle.keeper_sqlite.specs.Telling.{AgesAs};
ghost use Rattle.sqlite.specs.Held.{state};
ghost use Rattle.sqlite.specs.State.{HasCleanDisk};
ghost use Rattle.row_store.specs.Calls.{GoesOn, Lasts, Stays};
ghost use Rattle.row_store.specs.Stored.{AreInKeyOrder};
ghost use Rattle.row_store.specs.Table.{is_desk};
ghost use Rattle.keeper_sqlite.specs.Causes.{FailsToLoad, IsStoppedTelling};
ghost use Rattle.keeper_sqlite.specs.Steps.{IsFound, IsHeld, IsReady, KeepsTold, Spares};

use crate::fault::{store_fail, unpack_fail};
use crate::renewing::renew;
use desk_packing::{PackedRow, Shape, unpack};
use desk_words::Tables;
use keeper_core::KeepFail;
use row_store::{Footing, all_rows, footing_of, make_table};
use sqlite::{Alter, Connection};
use std::alloc::Global;

/// Which rows stand in the table.
#[derive(Clone, Copy, Debug, PartialEq, Eq)]
pub enum Age {
    /// None yet.
    Blank,
    /// Those of the version from before editions had folded attributes.
    Old,
    /// Those of this version.
    New,
}

/// Tables that were found in the table.
#[derive(Debug, Drop)]
pub struct Found {
    pub tables: Tables,
    pub age: Age,
}

/// Tables that were loaded, and how long their lists are.
#[derive(Debug, Drop)]
pub struct Loaded {
    pub tables: Tables,
    pub shape: Shape,
}

/// Reads the tables. Where the table is missing it is made with its first rows, and rows of the old version are put
/// anew: nothing of it changes what is told.
pub fn load_tables<S: Alter>(conn: &mut Connection<S>) -> Result<Loaded, KeepFail>
    requires autocommit { conn.old.in_transaction ≡ false }
    requires unlimited { conn.old.step_limit ≡ None }
    ensures held { IfOk result (λ loaded. IsHeld (state S.Store conn.new) (rows_of loaded.tables)) }
    ensures was_up { OnOk result (HasCleanDisk (state S.Store conn.new) → IsTrue (state S.Store conn.old).is_open) }
    ensures shape { IfOk result (λ loaded. loaded.shape ≡ shape_of (rows_of loaded.tables)) }
    ensures whole { IfOk result (λ loaded. AreTables (rows_of loaded.tables)) }
    ensures keeps { KeepsTold (state S.Store conn.old) (state S.Store conn.new) }
    ensures lasts { OnOk result (Lasts (state S.Store conn.new)) }
    ensures spares { OnErr result (Spares (state S.Store conn.old) (state S.Store conn.new)) }
    ensures unlimited { conn.new.step_limit ≡ None }
    ensures fails { IsErrOf result KeepFail.Failed → HasCleanDisk (state S.Store conn.new)
        → FailsToLoad (state S.Store conn.old) (state S.Store conn.new) }
{
    ready_table(conn)?;
    let (alloc, found) = read_found(conn)?;
    let shape = Shape::of(alloc, &found.tables)?;
    renew(alloc, conn, &found)?;
    Ok(Loaded {
        tables: found.tables,
        shape,
    })
}

/// Finds the table, or makes it where it is missing.
fn ready_table<S: Alter>(conn: &mut Connection<S>) -> Result<(), KeepFail>
    requires autocommit { conn.old.in_transaction ≡ false }
    requires unlimited { conn.old.step_limit ≡ None }
    ensures ready { OnOk result (IsReady (state S.Store conn.old) (state S.Store conn.new)) }
    ensures keeps { KeepsTold (state S.Store conn.old) (state S.Store conn.new) }
    ensures goes_on { GoesOn (state S.Store conn.old) (state S.Store conn.new) }
    ensures spares { Spares (state S.Store conn.old) (state S.Store conn.new) }
    ensures fails { IsErrOf result KeepFail.Failed → HasCleanDisk (state S.Store conn.new)
        → IsStoppedTelling (state S.Store conn.old) (state S.Store conn.new) }
{
    let footing = match footing_of(conn) {
        Ok(footing) => footing,
        Err(error) => return Err(store_fail(error)),
    };
    match footing {
        Footing::Desk => Ok(()),
        Footing::Absent => match make_table(conn) {
            Ok(()) => Ok(()),
            Err(error) => Err(store_fail(error)),
        },
        Footing::Other => Err(KeepFail::Failed),
    }
}

/// Reads the rows of the table.
fn read_found<S: Alter>(conn: &mut Connection<S>) -> Result<(Global, Found), KeepFail>
    requires autocommit { conn.old.in_transaction ≡ false }
    requires unlimited { conn.old.step_limit ≡ None }
    requires desk { HasCleanDisk (state S.Store conn.old) → IsTrue (is_desk (state S.Store conn.old).now.schema) }
    ensures found { IfOk result (λ pair. IsFound pair.1.age (state S.Store conn.new) (rows_of pair.1.tables)) }
    ensures was_up { OnOk result (HasCleanDisk (state S.Store conn.new) → IsTrue (state S.Store conn.old).is_open) }
    ensures whole { IfOk result (λ pair. AreTables (rows_of pair.1.tables)) }
    ensures keeps { KeepsTold (state S.Store conn.old) (state S.Store conn.new) }
    ensures lasts { OnOk result (Lasts (state S.Store conn.new)) }
    ensures goes_on { GoesOn (state S.Store conn.old) (state S.Store conn.new) }
    ensures unchanged { Stays (state S.Store conn.old) (state S.Store conn.new) }
    ensures fails { IsErrOf result KeepFail.Failed → HasCleanDisk (state S.Store conn.new)
        → IsStoppedTelling (state S.Store conn.old) (state S.Store conn.new) }
{
    let rows = match all_rows(conn) {
        Ok(rows) => rows,
        Err(error) => return Err(store_fail(error)),
    };
    let alloc = rows.allocator();
    Ok((alloc, found_in(alloc, rows.as_slice())?))
}

/// The tables that rows stand for, and of which age the rows are.
fn found_in(alloc: Global, rows: &[PackedRow]) -> Result<Found, KeepFail>
    ensures found { IfOk result (λ found. AgesAs found.age (map line_of rows.now) (rows_of found.tables)) }
    ensures whole { IfOk result (λ found. AreTables (rows_of found.tables)) }
    ensures fails { IsErrOf result KeepFail.Failed → (tables : Rows) → AreInKeyOrder (map line_of rows.now)
        → StandFor (map line_of rows.now) tables → ⊥ }
{
    match unpack(alloc, rows) {
        Ok(found) => Ok(Found {
            tables: found.tables,
            age: age_of(rows, found.is_old),
        }),
        Err(fault) => Err(unpack_fail(fault)),
    }
}

/// The age of rows of which it is said that they are of the old version, or that they are not.
fn age_of(rows: &[PackedRow], is_old: bool) -> Age
    ensures { (tables : Rows) → StandAs is_old (map line_of rows.now) tables
        → AgesAs result (map line_of rows.now) tables }
{
    if rows.is_empty() {
        Age::Blank
    } else if is_old {
        Age::Old
    } else {
        Age::New
    }
}
