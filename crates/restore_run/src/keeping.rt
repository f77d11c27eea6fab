//! A desk that was restored is handed to a keeper, where that has a new one.
ghost use Rattle.std.specs.Prelude.{◌≢◌};
ghost use Rattle.desk_words.specs.Changes.{FitAll, changed_all};
ghost use Rattle.desk_words.specs.Tables.{empty_rows};
ghost use Rattle.restore_run.specs.Kept.{Keeps, keeper_seen};

use crate::ended::RestoreEnd;
use crate::new_desk::is_new_desk;
use desk_base::List;
use desk_words::Change;
use keeper_core::{KeepFail, Keeper};

/// Has a keeper make these changes, where it has a new desk: in one commit, so all of them or none.
pub fn keep<K: Keeper>(keeper: &mut K, changes: &List<Change>) -> RestoreEnd
    requires { FitAll empty_rows changes.now }
    ensures kept { let seen = keeper_seen K.Keeper in
        Keeps (K.holds keeper.old) (changed_all empty_rows changes.now) (seen keeper.old) (seen keeper.new) result }
    ensures steady { K.is_steady keeper.old → result ≢ RestoreEnd.Unavailable }
{
    let tables = match keeper.load() {
        Ok(tables) => tables,
        Err(KeepFail::Failed) => return RestoreEnd::Unavailable,
        Err(KeepFail::NoMemory) => return RestoreEnd::NoMemory,
    };
    let is_there = !is_new_desk(&tables);
    drop(tables);
    if is_there {
        return RestoreEnd::Standing;
    }
    match keeper.commit(changes) {
        Ok(()) => RestoreEnd::Done,
        Err(KeepFail::Failed) => RestoreEnd::Unavailable,
        Err(KeepFail::NoMemory) => RestoreEnd::NoMemory,
    }
}
