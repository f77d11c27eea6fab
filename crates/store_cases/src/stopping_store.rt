//! The store over files in memory that stop.
use sqlite::{Alter, Connection, FileStore, Files, Options};
use sqlite_disk::{Fuse, Memory};
use std::alloc::Global;

/// Where the library begins to draw what it writes into a log's head.
const SEED: u64 = 1;

/// A log and its database in files in memory, each of which stops after so many calls.
pub type Fused = Files<Fuse<Memory>>;

/// The store over them.
pub type FusedStore = FileStore<Fuse<Memory>>;

/// A store over files that stop, which is `FusedStore`. What owns one is written for any, since a function that names
/// the store's type costs ten times as much to prove (`docs/gate.md`).
pub trait StoppingStore: Alter + Drop + Sized {
    ghost use Rattle.std.specs.Prelude.{◌≡◌, false, IfOk};

    /// Opens the files, or gives them back where they are not opened.
    fn open(alloc: Global, files: Fused) -> Result<Connection<Self>, Fused>
        ensures { IfOk result (λ conn. conn.in_transaction ≡ false) };

    /// Copies the log into the database. Whether it was copied is answered.
    fn settle(&mut self) -> bool;

    /// Gives the files back as they are.
    fn close(self) -> Fused;
}

impl StoppingStore for FileStore<Fuse<Memory>> {
    fn open(alloc: Global, files: Fused) -> Result<Connection<FusedStore>, Fused> {
        if !files.may_be_used() {
            return Err(files);
        }
        match Connection::open_files(alloc, files, Options::new(SEED)) {
            Ok(conn) => Ok(conn),
            Err((_, left)) => Err(left.into_files()),
        }
    }

    fn settle(&mut self) -> bool {
        self.checkpoint().is_ok()
    }

    fn close(self) -> Fused {
        FileStore::close(self)
    }
}
