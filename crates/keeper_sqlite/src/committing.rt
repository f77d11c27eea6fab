//! Changes are packed and put.
ghost use Rattle.std.specs.Prelude.{◌≡◌, false, None, Some, IfOk, IsErrOf, OnOk, OnErr};
ghost use Rattle.keeper_core.specs.Keeping.{FitTold};
ghost use Rattle.sqlite.specs.Held.{state};
ghost use Rattle.row_store.specs.Calls.{Becomes, Leaves, Stays};
ghost use Rattle.sqlite.specs.State.{HasCleanDisk};
ghost use Rattle.keeper_sqlite.specs.Causes.{RefusesChanges};
ghost use Rattle.keeper_sqlite.specs.Steps.{ChangesTables, Knows};
ghost use Rattle.keeper_sqlite.specs.Telling.{told};

use crate::fault::{pack_fail, store_fail};
use desk_base::List;
use desk_packing::Shape;
use desk_words::Change;
use keeper_core::KeepFail;
use row_store::put_rows;
use sqlite::{Alter, Connection};

/// Packs the rows of the changes and puts them in one transaction, over tables whose lists are so long. How long they
/// are then is answered.
pub fn commit_changes<S: Alter>(
    conn: &mut Connection<S>,
    shape: &Shape,
    changes: &List<Change>,
) -> Result<Shape, KeepFail>
    requires autocommit { conn.old.in_transaction ≡ false }
    requires unlimited { conn.old.step_limit ≡ None }
    requires known { Knows (state S.Store conn.old) (Some shape.now) }
    requires fit { FitTold (told (state S.Store conn.old)) changes.now }
    ensures committed { OnOk result (Becomes (ChangesTables changes.now) (state S.Store conn.old)
        (state S.Store conn.new)) }
    ensures grown { IfOk result (λ grown. Knows (state S.Store conn.new) (Some grown)) }
    ensures kept { OnErr result (Knows (state S.Store conn.new) (Some shape.now)) }
    ensures unchanged { OnErr result (Stays (state S.Store conn.old) (state S.Store conn.new)) }
    ensures crash { Leaves (ChangesTables changes.now) (state S.Store conn.old) (state S.Store conn.new) }
    ensures autocommit { conn.new.in_transaction ≡ false }
    ensures unlimited { conn.new.step_limit ≡ None }
    ensures fails { IsErrOf result KeepFail.Failed → HasCleanDisk (state S.Store conn.new)
        → RefusesChanges shape.now changes.now (state S.Store conn.old) (state S.Store conn.new) }
{
    let packed = match shape.pack(changes.allocator(), changes) {
        Ok(packed) => packed,
        Err(fault) => return Err(pack_fail(fault)),
    };
    match put_rows(conn, packed.rows.as_slice()) {
        Ok(()) => Ok(packed.shape),
        Err(error) => Err(store_fail(error)),
    }
}
