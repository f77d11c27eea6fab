//! Whether a transaction is under way.
ghost use Rattle.std.specs.Prelude.{◌≡◌, ◌↔◌, true, IsErr, OnOk};
ghost use Rattle.sqlite.specs.Held.{state};
ghost use Rattle.row_store.specs.Calls.{IsAtRest};

use sqlite::{Alter, Connection, Error, ErrorCode};

/// Refuses a connection with a transaction under way.
pub fn at_rest<S: Alter>(conn: &Connection<S>) -> Result<(), Error>
    ensures rests { OnOk result (IsAtRest (state S.Store conn.now)) }
    ensures under_way { IsErr result ↔ (conn.now.in_transaction ≡ true) }
{
    if !conn.is_autocommit() {
        return Err(Error::SqliteFailure(ErrorCode::TransactionState));
    }
    // The schema is lent with the promise that the database obeys it.
    let _obeyed = conn.schema();
    Ok(())
}
