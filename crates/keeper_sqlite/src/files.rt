//! A keeper over the files at a path. It opens them with its first `load`.
ghost use Rattle.std.specs.Prelude.{◌≡◌, None, Some, IfOk, IsSome, OnOk, OnErr};
ghost use Rattle.desk_base.specs.Counts.{risen};
ghost use Rattle.desk_words.specs.Tables.{AreTables, rows_of};
ghost use Rattle.keeper_core.specs.Keeping.{ChangeTold, CountsFailures, FitTold};
ghost use Rattle.keeper_core.specs.Keeping.{IsLoaded, LoadsHeld, NeverFails, StayTold};
ghost use Rattle.sqlite.specs.WalFiles.{image_at};
ghost use Rattle.keeper_sqlite.specs.Files.{Finds, HoldsFiled, IfOpen, IfOpened, IsLeft, told_opened};
ghost use Rattle.keeper_sqlite.specs.Keeping.{lengths_of};
ghost use Rattle.keeper_sqlite.specs.Leaving.{CommitLeavesFiles, LoadLeavesFiles, LoadLeavesFound, LoadTells};
ghost use Rattle.keeper_sqlite.specs.Steps.{Spares};

use crate::counts::Counts;
use crate::fault::{open_fail, store_fail};
use crate::holding::Holding;
use desk_base::{List, Str};
use desk_words::{Change, Tables};
use keeper_core::{KeepFail, Keeper};
use row_store::OpenFault;
use sqlite::{Alter, FileFrom, FileStore, Files, Start, Unknown};
use std::marker::Model;

/// The connection of the files of `S`, once they are open.
type Opened<S> = Holding<FileStore<FileFrom<S>>>;

/// What is left of the files of `S` after a close.
type Closed<S> = Option<Files<FileFrom<S>>>;

/// A keeper over the files at a path, of which `S` says what they held. `T` is the store over them.
#[derive(Drop)]
pub struct FileKeeper<'r, S: Start, T: Alter> {
    rt: &'r HostRuntime,
    path: Str,
    start: Option<S>,
    tables: Option<Holding<T>>,
    counts: Counts,
    fault: Option<OpenFault>,
}

impl<'r, S: Start, T: Alter> Model for FileKeeper<'r, S, T> {
    ghost use Rattle.keeper_sqlite.specs.Keeping.{Filed, filed_code};

    ghost Value = { Filed S T };

    ghost coded = { filed_code S.code T.code };

    ghost view = { λ k. record {
      path = k.path;
      start = k.start;
      tables = k.tables;
      calls = k.counts.calls;
      faults = k.counts.faults;
    } };
}

/// The keeper of a program. Of the files it says nothing that a clause could use (`Unknown`): what it does is what
/// `FileKeeper` does over any files.
pub type SqlKeeper<'r> = FileKeeper<'r, Unknown, FileStore<FileFrom<Unknown>>>;

impl<'r> FileKeeper<'r, Unknown, FileStore<FileFrom<Unknown>>> {
    /// The keeper over the files at this path, none of which is touched yet.
    pub fn at(rt: &'r HostRuntime, path: Str) -> SqlKeeper<'r>
        ensures new { (result.path ≡ path) × IsSome result.start }
        ensures shut { result.tables ≡ None }
        ensures uncalled { (result.calls ≡ 0) × (result.faults ≡ 0) }
    {
        FileKeeper::over(rt, path, Unknown)
    }
}

impl<'r, S: Start> FileKeeper<'r, S, FileStore<FileFrom<S>>> {
    /// The keeper over the files at this path, which are as `S` says. None of them is touched yet.
    pub fn over(
        rt: &'r HostRuntime,
        path: Str,
        start: S,
    ) -> FileKeeper<'r, S, FileStore<FileFrom<S>>>
        ensures { result ≡ record { path = path; start = Some start; tables = None; calls = 0; faults = 0 } }
    {
        FileKeeper {
            rt,
            path,
            start: Some(start),
            tables: None,
            counts: Counts::new(),
            fault: None,
        }
    }

    /// Why the files were not opened, where that was refused. Nothing else is promised of it.
    pub fn fault(&self) -> Option<OpenFault> {
        self.fault
    }

    /// Opens the files, where they are not open. They are opened once: where that was refused, it is refused from then
    /// on.
    fn open_once(&mut self) -> Result<(), KeepFail>
        ensures told { told_opened self.new.tables ≡ told_opened self.old.tables }
        ensures counts { (self.new.calls ≡ self.old.calls) × (self.new.faults ≡ self.old.faults) }
        ensures same { IsSome self.old.tables → self.new.tables ≡ self.old.tables }
        ensures opened { OnOk result (IsSome self.new.tables) }
        ensures refused { OnErr result ((self.old.tables ≡ None) × (self.new.tables ≡ None)) }
        ensures found { self.old.tables ≡ None → IfOpened self.new.tables (Finds (image_at S.Start)) }
        ensures unloaded { self.old.tables ≡ None → lengths_of self.new.tables ≡ None }
    {
        if self.tables.is_some() {
            return Ok(());
        }
        let Some(start) = self.start.take() else {
            return Err(KeepFail::Failed);
        };
        match row_store::open(self.rt, self.path.as_str(), start) {
            Ok(connection) => {
                self.tables = Some(Holding::over(connection));
                Ok(())
            }
            Err((fault, _left)) => {
                self.fault = Some(fault);
                Err(open_fail(fault))
            }
        }
    }

    /// Opens the files and loads the tables, once.
    fn load_once(&mut self) -> Result<Tables, KeepFail>
        ensures counts { (self.new.calls ≡ self.old.calls) × (self.new.faults ≡ self.old.faults) }
        ensures told { LoadTells (told_opened self.old.tables) (told_opened self.new.tables) result }
        ensures kept { IfOk result (λ made. LoadsHeld (HoldsFiled (image_at S.Start) self.old.tables)
            (told_opened self.new.tables) (rows_of made)) }
        ensures leaves { LoadLeavesFiles self.old.tables self.new.tables result }
        ensures first { LoadLeavesFound (image_at S.Start) self.old.tables self.new.tables result }
    {
        if let Err(fail) = self.open_once() {
            return Err(fail);
        }
        load_opened(&mut self.tables)
    }

    /// Ends the keeper. Where tables were loaded the log is copied into the database file, which alone holds them then.
    pub fn close(self) -> Result<Closed<S>, KeepFail>
        ensures { IfOk result (IsLeft self.entry.tables) }
    {
        let FileKeeper {
            rt: _,
            path: _,
            start: _,
            tables,
            counts: _,
            fault: _,
        } = self;
        match tables {
            Some(holding) => close_loaded(holding),
            None => Ok(None),
        }
    }
}

impl<'r, S: Start> Keeper for FileKeeper<'r, S, FileStore<FileFrom<S>>> {
    ghost tables = { λ k. told_opened k.tables };

    ghost calls = { λ k. k.calls };

    ghost faults = { λ k. k.faults };

    ghost holds = { λ k rows. HoldsFiled (image_at S.Start) k.tables rows };

    ghost is_steady = { λ _. ⊥ };

    /// Opens the files and loads the tables, once. A further `load` is a failure that touches nothing.
    fn load(&mut self) -> Result<Tables, KeepFail>
        ensures loaded { IfOk result (λ made. IsLoaded (told_opened self.old.tables)
            (told_opened self.new.tables) (rows_of made)) }
        ensures kept { IfOk result (λ made. LoadsHeld (HoldsFiled (image_at S.Start) self.old.tables)
            (told_opened self.new.tables) (rows_of made)) }
        ensures whole { IfOk result (λ made. AreTables (rows_of made)) }
        ensures unchanged { OnErr result (StayTold (told_opened self.old.tables) (told_opened self.new.tables)) }
        ensures called { self.new.calls ≡ risen self.old.calls }
        ensures faults { CountsFailures self.old.faults self.new.faults result }
        ensures steady { ⊥ → NeverFails result × ⊥ }

        // What the load leaves of the files, what the first one leaves of what they held, and why each fails.
        ensures leaves { LoadLeavesFiles self.old.tables self.new.tables result }
        ensures first { LoadLeavesFound (image_at S.Start) self.old.tables self.new.tables result }
    {
        let answer = self.load_once();
        self.counts.count(answer)
    }

    /// Commits the changes in one transaction. Before a `load` has answered the tables it is a failure, and nothing is
    /// touched.
    fn commit(&mut self, changes: &List<Change>) -> Result<(), KeepFail>
        requires { FitTold (told_opened self.old.tables) changes.now }
        ensures committed { OnOk result (ChangeTold (told_opened self.old.tables)
            (told_opened self.new.tables) changes.now) }
        ensures unchanged { OnErr result (StayTold (told_opened self.old.tables) (told_opened self.new.tables)) }
        ensures called { self.new.calls ≡ risen self.old.calls }
        ensures faults { CountsFailures self.old.faults self.new.faults result }
        ensures steady { ⊥ → NeverFails result × ⊥ }

        // What the commit leaves of the files, and why it fails.
        ensures leaves { CommitLeavesFiles changes.now self.old.tables self.new.tables result }
    {
        let answer = commit_opened(&mut self.tables, changes);
        self.counts.count(answer)
    }
}

/// Loads the tables from files that are open.
fn load_opened<S: Start>(tables: &mut Option<Opened<S>>) -> Result<Tables, KeepFail>
    ensures told { LoadTells (told_opened tables.old) (told_opened tables.new) result }
    ensures leaves { LoadLeavesFiles tables.old tables.new result }
    ensures spares { OnErr result (IfOpen tables.old tables.new Spares) }
{
    match tables {
        Some(holding) => holding.load_once(),
        None => Err(KeepFail::Failed),
    }
}

/// Commits changes to files that are open.
fn commit_opened<S: Start>(
    tables: &mut Option<Opened<S>>,
    changes: &List<Change>,
) -> Result<(), KeepFail>
    requires { FitTold (told_opened tables.old) changes.now }
    ensures committed { OnOk result (ChangeTold (told_opened tables.old) (told_opened tables.new) changes.now) }
    ensures unchanged { OnErr result (StayTold (told_opened tables.old) (told_opened tables.new)) }
    ensures leaves { CommitLeavesFiles changes.now tables.old tables.new result }
{
    match tables {
        Some(holding) => holding.commit_loaded(changes),
        None => Err(KeepFail::Failed),
    }
}

/// Closes files, where tables were loaded from them.
fn close_loaded<S: Start>(holding: Opened<S>) -> Result<Closed<S>, KeepFail>
    ensures { IfOk result (IsLeft (Some holding)) }
{
    let Some(connection) = holding.into_loaded() else {
        return Ok(None);
    };
    match row_store::close(connection) {
        Ok(files) => Ok(Some(files)),
        Err(error) => Err(store_fail(error)),
    }
}
