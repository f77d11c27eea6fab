//! The table is made.
ghost use Rattle.std.specs.Prelude.{◌≡◌, ◌≢◌, false, true, None, IsTrue, IfErr, OnOk, OnErr};
ghost use Rattle.sqlite.specs.Held.{state};
ghost use Rattle.sqlite.specs.State.{HasCleanDisk, KeepsCommit, Survives};
ghost use Rattle.row_store.specs.Calls.{Becomes, GoesOn, IsAtRest, IsCommitted, Leaves, Stays};
ghost use Rattle.row_store.specs.Refusals.{IsHalted, IsStopped, no_memory};
ghost use Rattle.row_store.specs.Stored.{MakesTable, MakesTableIn};
ghost use Rattle.row_store.specs.Table.{is_absent};

use crate::rest::at_rest;
use sqlite::{Alter, Connection, Error, Transaction};

/// Makes the table in a file in which no object has its name, beside what stands there.
pub fn make_table<S: Alter>(conn: &mut Connection<S>) -> Result<(), Error>
    requires { IsTrue (is_absent (state S.Store conn.old).now.schema) }
    ensures made { OnOk result (Becomes MakesTable (state S.Store conn.old) (state S.Store conn.new)) }
    ensures unchanged { OnErr result (Stays (state S.Store conn.old) (state S.Store conn.new)) }
    ensures crash { Leaves MakesTable (state S.Store conn.old) (state S.Store conn.new) }
    ensures autocommit { conn.old.in_transaction ≡ false → conn.new.in_transaction ≡ false }
    ensures goes_on { GoesOn (state S.Store conn.old) (state S.Store conn.new) }
    ensures cause { IfErr result (λ e. e ≢ no_memory → conn.old.in_transaction ≡ false
        → conn.old.step_limit ≡ None → HasCleanDisk (state S.Store conn.new)
        → IsHalted (state S.Store conn.old) (state S.Store conn.new)) }
{
    at_rest(conn)?;
    make_alone(conn)
}

/// Makes the table in a transaction of its own, over a connection at rest.
fn make_alone<S: Alter>(conn: &mut Connection<S>) -> Result<(), Error>
    requires rests { IsAtRest (state S.Store conn.old) }
    requires absent { IsTrue (is_absent (state S.Store conn.old).now.schema) }
    ensures made { HasCleanDisk (state S.Store conn.new)
        → OnOk result (MakesTable (state S.Store conn.old).now (state S.Store conn.new).now) }
    ensures ends { HasCleanDisk (state S.Store conn.new)
        → OnOk result (IsCommitted (state S.Store conn.old) (state S.Store conn.new)) }
    ensures refused { HasCleanDisk (state S.Store conn.new) → IsTrue (state S.Store conn.new).is_open
        → OnErr result (IsTrue (state S.Store conn.old).is_open
        × ((state S.Store conn.new).now ≡ (state S.Store conn.old).now)) }
    ensures survives { Survives (state S.Store conn.old) (state S.Store conn.new) (MakesTableIn
        (state S.Store conn.old).now) }
    ensures autocommit { conn.new.in_transaction ≡ false }
    ensures cause { IfErr result (λ e. e ≢ no_memory → HasCleanDisk (state S.Store conn.new)
        → IsStopped (state S.Store conn.old) (state S.Store conn.new)) }
{
    let mut tx = conn.transaction();
    make_in(&mut tx)?;
    tx.commit()?;
    Ok(())
}

/// Makes the table in a transaction.
fn make_in<S: Alter>(tx: &mut Transaction<'_, S>) -> Result<usize, Error>
    requires inside { tx.old.conn.now.in_transaction ≡ true }
    requires absent { IsTrue (is_absent (state S.Store tx.old.conn.now).now.schema) }
    ensures same_reference { tx.new.conn.ghost_name ≡ tx.old.conn.ghost_name }
    ensures made { HasCleanDisk (state S.Store tx.new.conn.now)
        → OnOk result (MakesTable (state S.Store tx.old.conn.now).now (state S.Store tx.new.conn.now).now) }
    ensures inside { HasCleanDisk (state S.Store tx.new.conn.now)
        → OnOk result (IsTrue (state S.Store tx.new.conn.now).in_transaction) }
    ensures kept { HasCleanDisk (state S.Store tx.new.conn.now)
        → KeepsCommit (state S.Store tx.old.conn.now) (state S.Store tx.new.conn.now) }
    ensures survives { Survives (state S.Store tx.old.conn.now) (state S.Store tx.new.conn.now) (λ _. ⊥) }
    ensures cause { IfErr result (λ e. e ≢ no_memory → HasCleanDisk (state S.Store tx.new.conn.now)
        → IsStopped (state S.Store tx.old.conn.now) (state S.Store tx.new.conn.now)) }
{
    tx.execute(
        "CREATE TABLE desk_rows (kind INTEGER NOT NULL, owner INTEGER NOT NULL, place INTEGER NOT NULL, \
         body BLOB NOT NULL, PRIMARY KEY (kind, owner, place))",
        &[],
    )
}
