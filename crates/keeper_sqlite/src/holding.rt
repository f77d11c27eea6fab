//! An open connection, and how long the lists of its tables are once they were loaded.
ghost use Rattle.std.specs.Prelude.{◌≡◌, false, None, IfOk, IsErrOf, MatchOption, OnOk, OnErr, IsSome};
ghost use Rattle.desk_words.specs.Tables.{AreTables, rows_of};
ghost use Rattle.keeper_core.specs.Keeping.{ChangeTold, FitTold, StayTold};
ghost use Rattle.sqlite.specs.Held.{state};
ghost use Rattle.sqlite.specs.State.{HasCleanDisk};
ghost use Rattle.keeper_sqlite.specs.Causes.{FailsToLoad};
ghost use Rattle.keeper_sqlite.specs.Leaving.{CommitLeaves, IsGivenBack, LoadLeaves, LoadTells, LoadsOnce};
ghost use Rattle.keeper_sqlite.specs.Steps.{FitKnown, Knows, told_loaded};
ghost use Rattle.keeper_sqlite.specs.Telling.{told};

use crate::committing::commit_changes;
use crate::loading::load_tables;
use desk_base::List;
use desk_packing::Shape;
use desk_words::{Change, Tables};
use keeper_core::KeepFail;
use sqlite::{Alter, Connection};
use std::marker::Model;

/// An open connection with no limit on the steps of a statement. No transaction is under way.
#[derive(Drop)]
pub struct Holding<S: Alter> {
    connection: Connection<S>,
    shape: Option<Shape>,
}

impl<S: Alter> Model for Holding<S> {
    ghost use Rattle.std.specs.Prelude.{◌≡◌, false, None};
    ghost use Rattle.sqlite.specs.Held.{state};
    ghost use Rattle.keeper_sqlite.specs.Keeping.{Connected, connected_code};
    ghost use Rattle.keeper_sqlite.specs.Steps.{Knows};

    ghost Value = { Connected S };

    ghost coded = { connected_code S.code };

    ghost view = { λ k. record { connection = k.connection; lengths = k.shape } };

    ghost invariant = { λ k. (k.connection.in_transaction ≡ false) × (k.connection.step_limit ≡ None)
        × Knows (state S.Store k.connection) k.shape };
}

impl<S: Alter> Holding<S> {
    /// This connection, of whose tables nothing is known yet, with no limit on the steps of a statement.
    pub fn over(mut connection: Connection<S>) -> Holding<S>
        requires { connection.in_transaction ≡ false }
        ensures { result ≡ record { connection = record connection { step_limit = None }; lengths = None } }
    {
        connection.set_step_limit(None);
        Holding {
            connection,
            shape: None,
        }
    }

    /// Gives the connection back, with what is known of its tables.
    pub fn into_connection(self) -> Connection<S>
        ensures given { IsGivenBack self.connection result }
        ensures known { Knows (state S.Store self.connection) self.lengths }
    {
        let Holding {
            connection,
            shape: _,
        } = self;
        connection
    }

    /// Loads the tables, and makes them known. Where it is refused none are known any more.
    pub fn load(&mut self) -> Result<Tables, KeepFail>
        ensures whole { IfOk result (λ made. AreTables (rows_of made)) }
        ensures leaves { LoadLeaves S.Store self.old.connection self.new.connection result }
        ensures known { OnOk result (IsSome self.new.lengths) }
        ensures fails { IsErrOf result KeepFail.Failed → HasCleanDisk (state S.Store self.new.connection)
            → FailsToLoad (state S.Store self.old.connection) (state S.Store self.new.connection) }
        ensures forgotten { OnErr result (self.new.lengths ≡ None) }
    {
        self.shape = None;
        match load_tables(&mut self.connection) {
            Ok(loaded) => {
                self.shape = Some(loaded.shape);
                Ok(loaded.tables)
            }
            Err(fail) => Err(fail),
        }
    }

    /// Commits changes of tables that are known.
    pub fn commit(&mut self, changes: &List<Change>) -> Result<(), KeepFail>
        requires { FitKnown (state S.Store self.old.connection) self.old.lengths changes.now }
        ensures leaves { CommitLeaves S.Store self.old.lengths changes.now self.old.connection self.new.connection
            result }
        ensures told { OnOk result (ChangeTold (told (state S.Store self.old.connection)) (told
            (state S.Store self.new.connection)) changes.now) }
        ensures known { OnOk result (IsSome self.old.lengths × IsSome self.new.lengths) }
        ensures kept { OnErr result (self.new.lengths ≡ self.old.lengths) }
    {
        let Some(shape) = &self.shape else {
            return Err(KeepFail::Failed);
        };
        match commit_changes(&mut self.connection, shape, changes) {
            Ok(grown) => {
                self.shape = Some(grown);
                Ok(())
            }
            Err(fail) => Err(fail),
        }
    }

    /// Loads the tables once. Where they are known already it is a failure, and nothing is touched.
    pub fn load_once(&mut self) -> Result<Tables, KeepFail>
        ensures told { LoadTells (told_loaded (state S.Store self.old.connection) self.old.lengths)
            (told_loaded (state S.Store self.new.connection) self.new.lengths) result }
        ensures loads { LoadsOnce S.Store self.old.lengths self.old.connection self.new.connection result }
        ensures known { OnOk result (self.old.lengths ≡ None) }
    {
        if self.shape.is_some() {
            return Err(KeepFail::Failed);
        }
        self.load()
    }

    /// Commits changes. Before tables were loaded it is a failure, and nothing is touched.
    pub fn commit_loaded(&mut self, changes: &List<Change>) -> Result<(), KeepFail>
        requires { FitTold (told_loaded (state S.Store self.old.connection) self.old.lengths) changes.now }
        ensures committed { OnOk result (ChangeTold (told_loaded (state S.Store self.old.connection) self.old.lengths)
            (told_loaded (state S.Store self.new.connection) self.new.lengths) changes.now) }
        ensures unchanged { OnErr result (StayTold (told_loaded (state S.Store self.old.connection) self.old.lengths)
            (told_loaded (state S.Store self.new.connection) self.new.lengths)) }
        ensures leaves { CommitLeaves S.Store self.old.lengths changes.now self.old.connection self.new.connection
            result }
    {
        self.commit(changes)
    }
}

impl<S: Alter + Drop> Holding<S> {
    /// Gives the connection back, where tables were loaded.
    pub fn into_loaded(self) -> Option<Connection<S>>
        ensures given { MatchOption result (self.lengths ≡ None)
            (λ connection. IsSome self.lengths × (connection ≡ self.connection)) }
        ensures known { Knows (state S.Store self.connection) self.lengths }
    {
        let Holding { connection, shape } = self;
        match shape {
            Some(_) => Some(connection),
            None => None,
        }
    }
}
