//! Rows are put over those that stand.
ghost use Rattle.std.specs.Prelude.{◌≡◌, ◌≢◌, ◌⊎◌, false, pos, List, map, [], ◌∷◌, None, IsTrue, IfErr, OnOk, OnErr};
ghost use Rattle.desk_packing.specs.Lines.{Line, line_of};
ghost use Rattle.sqlite.specs.declared.types.Value.TheVariants.{Int};
ghost use Rattle.sqlite.specs.Effect.{IsDatabase};
ghost use Rattle.sqlite.specs.Held.{state};
ghost use Rattle.sqlite.specs.State.{HasCleanDisk, KeepsCommit, Survives};
ghost use Rattle.sqlite.specs.Values.{bound_value};
ghost use Rattle.sqlite_value.specs.Value.{owned};
ghost use Rattle.row_store.specs.Calls.{Becomes, GoesOn, IsAtRest, IsCommitted, Lasts, Leaves, Stays};
ghost use Rattle.row_store.specs.Numbers.{TakesNumbers};
ghost use Rattle.row_store.specs.Refusals.{IsHalted, IsStopped, LacksRoom, LacksRoomFor, no_memory};
ghost use Rattle.row_store.specs.Stored.{Puts, PutsIn, Stands};

use crate::rest::at_rest;
use desk_packing::PackedRow;
use sqlite::types::ValueRef;
use sqlite::{Alter, Connection, Error, Transaction};

/// Puts all rows in one transaction, the first one first, or none of them.
pub fn put_rows<S: Alter>(conn: &mut Connection<S>, rows: &[PackedRow]) -> Result<(), Error>
    ensures put { OnOk result (Becomes (Puts (map line_of rows.now)) (state S.Store conn.old)
        (state S.Store conn.new)) }
    ensures unchanged { OnErr result (Stays (state S.Store conn.old) (state S.Store conn.new)) }
    ensures crash { Leaves (Puts (map line_of rows.now)) (state S.Store conn.old) (state S.Store conn.new) }
    ensures autocommit { conn.old.in_transaction ≡ false → conn.new.in_transaction ≡ false }
    ensures lasts { conn.old.in_transaction ≡ false → (lines : List Line)
        → Stands (state S.Store conn.old).now lines → Lasts (state S.Store conn.new) }
    ensures goes_on { GoesOn (state S.Store conn.old) (state S.Store conn.new) }
    ensures cause { IfErr result (λ e. e ≢ no_memory → conn.old.in_transaction ≡ false
        → conn.old.step_limit ≡ None → HasCleanDisk (state S.Store conn.new)
        → (lines : List Line) → Stands (state S.Store conn.old).now lines
        → IsHalted (state S.Store conn.old) (state S.Store conn.new)
        ⊎ LacksRoomFor (map line_of rows.now) (state S.Store conn.old).now) }
{
    at_rest(conn)?;
    put_all(conn, rows)
}

/// Puts all rows in one transaction over a connection at rest, or none of them.
fn put_all<S: Alter>(conn: &mut Connection<S>, rows: &[PackedRow]) -> Result<(), Error>
    requires { IsAtRest (state S.Store conn.old) }
    ensures put { HasCleanDisk (state S.Store conn.new)
        → OnOk result (Puts (map line_of rows.now) (state S.Store conn.old).now (state S.Store conn.new).now) }
    ensures ends { HasCleanDisk (state S.Store conn.new)
        → OnOk result (IsCommitted (state S.Store conn.old) (state S.Store conn.new)) }
    ensures refused { HasCleanDisk (state S.Store conn.new) → IsTrue (state S.Store conn.new).is_open
        → OnErr result (IsTrue (state S.Store conn.old).is_open
        × ((state S.Store conn.new).now ≡ (state S.Store conn.old).now)
        × ((state S.Store conn.new).committed ≡ (state S.Store conn.old).now)) }
    ensures survives { Survives (state S.Store conn.old) (state S.Store conn.new) (PutsIn (map line_of rows.now)
        (state S.Store conn.old).now) }
    ensures cause { IfErr result (λ e. e ≢ no_memory → HasCleanDisk (state S.Store conn.new)
        → (lines : List Line) → Stands (state S.Store conn.old).now lines
        → IsStopped (state S.Store conn.old) (state S.Store conn.new)
        ⊎ LacksRoomFor (map line_of rows.now) (state S.Store conn.old).now) }
    ensures autocommit { conn.new.in_transaction ≡ false }
{
    let mut tx = conn.transaction();
    'rows: for row in rows {
        put_row(&mut tx, row)?;
    }
    tx.commit()?;
    Ok(())
}

/// Puts a row in a transaction.
fn put_row<S: Alter>(tx: &mut Transaction<'_, S>, row: &PackedRow) -> Result<usize, Error>
    ensures same_reference { tx.new.conn.ghost_name ≡ tx.old.conn.ghost_name }
    ensures puts { HasCleanDisk (state S.Store tx.new.conn.now) → IsTrue (state S.Store tx.old.conn.now).in_transaction
        → OnOk result (Puts (line_of row.now ∷ []) (state S.Store tx.old.conn.now).now
        (state S.Store tx.new.conn.now).now) }
    ensures numbers { HasCleanDisk (state S.Store tx.new.conn.now)
        → IsTrue (state S.Store tx.old.conn.now).in_transaction
        → OnOk result (TakesNumbers 1 (state S.Store tx.old.conn.now).now (state S.Store tx.new.conn.now).now) }
    ensures inside { HasCleanDisk (state S.Store tx.new.conn.now)
        → IsTrue (state S.Store tx.old.conn.now).in_transaction
        → OnOk result (IsTrue (state S.Store tx.new.conn.now).in_transaction) }
    ensures kept { HasCleanDisk (state S.Store tx.new.conn.now) → IsTrue (state S.Store tx.old.conn.now).in_transaction
        → KeepsCommit (state S.Store tx.old.conn.now) (state S.Store tx.new.conn.now) }
    ensures survives { Survives (state S.Store tx.old.conn.now) (state S.Store tx.new.conn.now) (λ _. ⊥) }
    ensures cause { IfErr result (λ e. e ≢ no_memory → HasCleanDisk (state S.Store tx.new.conn.now)
        → IsTrue (state S.Store tx.old.conn.now).in_transaction
        → (lines : List Line) → Stands (state S.Store tx.old.conn.now).now lines
        → IsDatabase (state S.Store tx.old.conn.now).now
        → IsStopped (state S.Store tx.old.conn.now) (state S.Store tx.new.conn.now)
        ⊎ LacksRoom 1 (line_of row.now) (state S.Store tx.old.conn.now).now) }
{
    tx.execute(
        "INSERT INTO desk_rows (kind, owner, place, body) VALUES (?1, ?2, ?3, ?4) \
         ON CONFLICT (kind, owner, place) DO UPDATE SET body = ?4",
        &[
            whole(row.kind),
            whole(row.owner),
            whole(row.place),
            ValueRef::Blob(row.body.as_slice()),
        ],
    )
}

/// A number as a value of SQL.
fn whole(number: u32) -> ValueRef<'static>
    ensures { bound_value (owned result) ≡ Int (pos number) }
{
    ValueRef::Int(i64::from(number))
}
