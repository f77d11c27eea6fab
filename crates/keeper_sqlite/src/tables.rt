//! A keeper over an open connection in memory. It tells its tables from the beginning.
ghost use Rattle.std.specs.Prelude.{◌≡◌, IfOk, IsErrOf, OnOk, OnErr};
ghost use Rattle.desk_base.specs.Counts.{risen};
ghost use Rattle.desk_words.specs.Tables.{AreTables, rows_of};
ghost use Rattle.keeper_core.specs.Keeping.{ChangeTold, CountsFailures, FitTold};
ghost use Rattle.keeper_core.specs.Keeping.{IsLoaded, LoadsHeld, NeverFails, StayTold};
ghost use Rattle.sqlite.specs.Held.{state};
ghost use Rattle.keeper_sqlite.specs.Causes.{FailsToCommit, FailsToLoad};
ghost use Rattle.keeper_sqlite.specs.Leaving.{CommitLeaves, LoadLeaves};
ghost use Rattle.keeper_sqlite.specs.Steps.{TellsUp, told_by};

use crate::connected::ConnectionKeeper;
use desk_base::List;
use desk_words::{Change, Tables};
use keeper_core::{KeepFail, Keeper};
use sqlite::{Alter, MemStore};

/// A store that returns what was written, whatever happens. A file is none, since a disk may lie.
pub trait NeverUnclean: Alter {
    ghost use Rattle.std.specs.Prelude.{IsTrue};

    /// No wrong answer is taken as true.
    ghost never_unclean: { (s : Self) → IsTrue (Self.Store.view s).is_clean };
}

impl NeverUnclean for MemStore {
    ghost use Rattle.std.specs.Prelude.{refl};

    ghost never_unclean = { λ s. refl };
}

/// A keeper that tells its tables from the beginning, and loads as often as it is asked.
pub struct FromTheStart;

/// A keeper over an open connection of a store that returns what was written.
pub type SqlTables<S> = ConnectionKeeper<S, FromTheStart>;

impl<S: NeverUnclean> Keeper for ConnectionKeeper<S, FromTheStart> {
    ghost tables = { λ k. told_by S.Store k };

    ghost calls = { λ k. k.calls };

    ghost faults = { λ k. k.faults };

    ghost holds = { λ k rows. TellsUp (state S.Store k.connection) rows };

    ghost is_steady = { λ _. ⊥ };

    /// Loads the tables. Where it is refused, `commit` is refused until a later `load` succeeds.
    fn load(&mut self) -> Result<Tables, KeepFail>
        ensures loaded { IfOk result (λ made. IsLoaded (told_by S.Store self.old) (told_by S.Store self.new)
            (rows_of made)) }
        ensures kept { IfOk result (λ made. LoadsHeld (TellsUp (state S.Store self.old.connection))
            (told_by S.Store self.new) (rows_of made)) }
        ensures whole { IfOk result (λ made. AreTables (rows_of made)) }
        ensures unchanged { OnErr result (StayTold (told_by S.Store self.old) (told_by S.Store self.new)) }
        ensures called { self.new.calls ≡ risen self.old.calls }
        ensures faults { CountsFailures self.old.faults self.new.faults result }
        ensures steady { ⊥ → NeverFails result × ⊥ }

        // What the load leaves of the connection. Why it fails is always said, since the store is clean.
        ensures leaves { LoadLeaves S.Store self.old.connection self.new.connection result }
        ensures fails { IsErrOf result KeepFail.Failed
            → FailsToLoad (state S.Store self.old.connection) (state S.Store self.new.connection) }
    {
        let answer = self.inner.load();
        self.counts.count(answer)
    }

    /// Commits the changes in one transaction. Before tables were loaded it is a failure, and nothing is touched.
    fn commit(&mut self, changes: &List<Change>) -> Result<(), KeepFail>
        requires { FitTold (told_by S.Store self.old) changes.now }
        ensures committed { OnOk result (ChangeTold (told_by S.Store self.old) (told_by S.Store self.new)
            changes.now) }
        ensures unchanged { OnErr result (StayTold (told_by S.Store self.old) (told_by S.Store self.new)) }
        ensures called { self.new.calls ≡ risen self.old.calls }
        ensures faults { CountsFailures self.old.faults self.new.faults result }
        ensures steady { ⊥ → NeverFails result × ⊥ }

        // What the commit leaves of the connection. Why it fails is always said, since the store is clean.
        ensures leaves { CommitLeaves S.Store self.old.lengths changes.now self.old.connection self.new.connection
            result }
        ensures fails { IsErrOf result KeepFail.Failed → FailsToCommit self.old.lengths changes.now
            (state S.Store self.old.connection) (state S.Store self.new.connection) }
    {
        let answer = self.inner.commit(changes);
        self.counts.count(answer)
    }
}
