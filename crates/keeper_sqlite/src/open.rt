//! A keeper over an open connection of any store. It tells nothing before it has loaded, and loads once.
ghost use Rattle.std.specs.Prelude.{◌≡◌, IfOk, OnOk, OnErr};
ghost use Rattle.desk_base.specs.Counts.{risen};
ghost use Rattle.desk_words.specs.Tables.{AreTables, rows_of};
ghost use Rattle.keeper_core.specs.Keeping.{ChangeTold, CountsFailures, FitTold};
ghost use Rattle.keeper_core.specs.Keeping.{IsLoaded, LoadsHeld, NeverFails, StayTold};
ghost use Rattle.sqlite.specs.Held.{state};
ghost use Rattle.keeper_sqlite.specs.Leaving.{CommitLeaves, LoadsOnce};
ghost use Rattle.keeper_sqlite.specs.Steps.{TellsUp, told_once};

use crate::connected::ConnectionKeeper;
use desk_base::List;
use desk_words::{Change, Tables};
use keeper_core::{KeepFail, Keeper};
use sqlite::Alter;

/// A keeper that tells its tables once it has loaded them, and loads once.
pub struct OnceLoaded;

/// A keeper over an open connection of any store.
pub type OpenTables<S> = ConnectionKeeper<S, OnceLoaded>;

impl<S: Alter> Keeper for ConnectionKeeper<S, OnceLoaded> {
    ghost tables = { λ k. told_once S.Store k };

    ghost calls = { λ k. k.calls };

    ghost faults = { λ k. k.faults };

    ghost holds = { λ k rows. TellsUp (state S.Store k.connection) rows };

    ghost is_steady = { λ _. ⊥ };

    /// Loads the tables once. Where they are known already it is a failure, and nothing is touched.
    fn load(&mut self) -> Result<Tables, KeepFail>
        ensures loaded { IfOk result (λ made. IsLoaded (told_once S.Store self.old) (told_once S.Store self.new)
            (rows_of made)) }
        ensures kept { IfOk result (λ made. LoadsHeld (TellsUp (state S.Store self.old.connection))
            (told_once S.Store self.new) (rows_of made)) }
        ensures whole { IfOk result (λ made. AreTables (rows_of made)) }
        ensures unchanged { OnErr result (StayTold (told_once S.Store self.old) (told_once S.Store self.new)) }
        ensures called { self.new.calls ≡ risen self.old.calls }
        ensures faults { CountsFailures self.old.faults self.new.faults result }
        ensures steady { ⊥ → NeverFails result × ⊥ }

        // What the load leaves of the connection, that it is made once, and why it fails.
        ensures loads { LoadsOnce S.Store self.old.lengths self.old.connection self.new.connection result }
    {
        let answer = self.inner.load_once();
        self.counts.count(answer)
    }

    /// Commits the changes in one transaction. Before tables were loaded it is a failure, and nothing is touched.
    fn commit(&mut self, changes: &List<Change>) -> Result<(), KeepFail>
        requires { FitTold (told_once S.Store self.old) changes.now }
        ensures committed { OnOk result (ChangeTold (told_once S.Store self.old) (told_once S.Store self.new)
            changes.now) }
        ensures unchanged { OnErr result (StayTold (told_once S.Store self.old) (told_once S.Store self.new)) }
        ensures called { self.new.calls ≡ risen self.old.calls }
        ensures faults { CountsFailures self.old.faults self.new.faults result }
        ensures steady { ⊥ → NeverFails result × ⊥ }

        // What the commit leaves of the connection, and why it fails.
        ensures leaves { CommitLeaves S.Store self.old.lengths changes.now self.old.connection self.new.connection
            result }
    {
        let answer = self.inner.commit_loaded(changes);
        self.counts.count(answer)
    }
}
