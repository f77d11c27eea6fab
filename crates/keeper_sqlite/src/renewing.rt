//! The first rows are put, and rows of the old version anew.
ghost use Rattle.std.specs.Prelude.{◌⊎◌, IsErrOf};
ghost use Rattle.desk_words.specs.Tables.{AreTables, empty_rows, rows_of};
ghost use Rattle.sqlite.specs.Held.{state};
ghost use Rattle.sqlite.specs.State.{HasCleanDisk};
ghost use Rattle.row_store.specs.Refusals.{IsHalted};
ghost use Rattle.keeper_sqlite.specs.Causes.{LacksRoomFirst, LacksRoomToMigrate};
ghost use Rattle.keeper_sqlite.specs.Leaving.{MayRenew, RenewLeaves};

use crate::fault::{pack_fail, store_fail};
use crate::loading::{Age, Found};
use desk_packing::{migrated, pack_empty};
use desk_words::Tables;
use keeper_core::KeepFail;
use row_store::put_rows;
use sqlite::{Alter, Connection};
use std::alloc::Global;

/// Makes the rows those of this version, in one transaction.
pub fn renew<S: Alter>(
    alloc: Global,
    conn: &mut Connection<S>,
    found: &Found,
) -> Result<(), KeepFail>
    requires may { MayRenew S.Store found.now.age (rows_of found.now.tables) conn.old }
    requires whole { AreTables (rows_of found.now.tables) }
    ensures leaves { RenewLeaves (rows_of found.now.tables) (state S.Store conn.old) (state S.Store conn.new) result }
    ensures fails { IsErrOf result KeepFail.Failed → HasCleanDisk (state S.Store conn.new)
        → IsHalted (state S.Store conn.old) (state S.Store conn.new)
        ⊎ (LacksRoomToMigrate (rows_of found.now.tables) (state S.Store conn.old).now
        ⊎ LacksRoomFirst (state S.Store conn.old).now) }
{
    match found.age {
        Age::Blank => put_first(alloc, conn),
        Age::Old => migrate(alloc, conn, &found.tables),
        Age::New => Ok(()),
    }
}

/// Puts the rows of a new desk.
fn put_first<S: Alter>(alloc: Global, conn: &mut Connection<S>) -> Result<(), KeepFail>
    requires may { MayRenew S.Store Age.Blank empty_rows conn.old }
    ensures leaves { RenewLeaves empty_rows (state S.Store conn.old) (state S.Store conn.new) result }
    ensures fails { IsErrOf result KeepFail.Failed → HasCleanDisk (state S.Store conn.new)
        → IsHalted (state S.Store conn.old) (state S.Store conn.new) ⊎ LacksRoomFirst (state S.Store conn.old).now }
{
    let rows = pack_empty(alloc)?;
    match put_rows(conn, rows.as_slice()) {
        Ok(()) => Ok(()),
        Err(error) => Err(store_fail(error)),
    }
}

/// Puts rows of the old version anew.
fn migrate<S: Alter>(
    alloc: Global,
    conn: &mut Connection<S>,
    tables: &Tables,
) -> Result<(), KeepFail>
    requires may { MayRenew S.Store Age.Old (rows_of tables.now) conn.old }
    requires whole { AreTables (rows_of tables.now) }
    ensures leaves { RenewLeaves (rows_of tables.now) (state S.Store conn.old) (state S.Store conn.new) result }
    ensures fails { IsErrOf result KeepFail.Failed → HasCleanDisk (state S.Store conn.new)
        → IsHalted (state S.Store conn.old) (state S.Store conn.new)
        ⊎ LacksRoomToMigrate (rows_of tables.now) (state S.Store conn.old).now }
{
    let renewed = match migrated(alloc, tables) {
        Ok(renewed) => renewed,
        Err(fault) => return Err(pack_fail(fault)),
    };
    match put_rows(conn, renewed.as_slice()) {
        Ok(()) => Ok(()),
        Err(error) => Err(store_fail(error)),
    }
}
