//! Files in memory that stop after so many calls.
ghost use Rattle.std.specs.Prelude.{IsTrue};

use crate::stopping_store::{Fused, StoppingStore};
use crate::stored::{rows_of, stand};
use desk_trials::{Told, serve};
use keeper_sqlite::OpenTables;
use sqlite::Files;
use sqlite_disk::{Crash, Disk, Fuse, Memory};
use std::alloc::Global;
use std::test::Fail;
use std::{io, mem};

/// What stands in a log and its database.
#[derive(Drop)]
pub struct Standing {
    log: Vec<u8>,
    db: Vec<u8>,
}

/// Files that stop, under a keeper while they are open.
#[derive(Drop)]
pub struct Disks<S: StoppingStore> {
    keeper: Option<OpenTables<S>>,
    files: Option<Fused>,
}

impl Standing {
    /// What stands in new files after these rows were put in them, with the log copied into the database; nothing where
    /// there is no text of rows.
    pub fn with_rows<S: StoppingStore>(
        alloc: Global,
        rows: Option<&str>,
    ) -> Result<Standing, Fail> {
        let nothing = Standing {
            log: Vec::new(alloc),
            db: Vec::new(alloc),
        };
        match rows {
            Some(_) => nothing.filled::<S>(alloc, rows),
            None => Ok(nothing),
        }
    }

    /// The same, where this stands in the files before.
    fn filled<S: StoppingStore>(
        &self,
        alloc: Global,
        rows: Option<&str>,
    ) -> Result<Standing, Fail> {
        let mut disks: Disks<S> = Disks::holding(alloc, self, u64::MAX)?;
        let filled = disks.filled(alloc, rows);
        drop(disks);
        filled
    }

    /// New files in which it stands, each of which stops after so many calls.
    fn files(&self, alloc: Global, calls: u64) -> Result<Fused, Fail> {
        let log = disk(alloc, self.log.as_slice(), calls)?;
        let db = disk(alloc, self.db.as_slice(), calls)?;
        Ok(Files { log, db })
    }
}

/// A new file with these bytes, which stops after so many calls.
fn disk(alloc: Global, bytes: &[u8], calls: u64) -> Result<Fuse<Memory>, Fail> {
    let mut memory = Memory::new(alloc);
    match write(&mut memory, bytes) {
        Ok(()) => Ok(Fuse::new(memory, calls)),
        Err(_) => Err(Fail::new("a file in memory was not written")),
    }
}

/// Writes these bytes to a new file, so that no crash loses them.
fn write(memory: &mut Memory, bytes: &[u8]) -> io::Result<()>
    requires { IsTrue (⟦<Memory as Disk>⟧.is_usable memory.old) }
{
    memory.write_at(0, bytes)?;
    memory.sync()
}

impl<S: StoppingStore> Disks<S> {
    /// Files in which this stands at first, each of which stops after so many calls. They are not open where they stop
    /// meanwhile.
    pub fn holding(alloc: Global, standing: &Standing, calls: u64) -> Result<Disks<S>, Fail> {
        Ok(Disks::over(alloc, standing.files(alloc, calls)?))
    }

    fn over(alloc: Global, files: Fused) -> Disks<S> {
        match S::open(alloc, files) {
            Ok(conn) => Disks {
                keeper: Some(OpenTables::over(conn)),
                files: None,
            },
            Err(files) => Disks {
                keeper: None,
                files: Some(files),
            },
        }
    }

    /// Whether they are open.
    pub fn are_open(&self) -> bool {
        self.keeper.is_some()
    }

    /// What a stream of these bytes is answered.
    pub fn serve(&mut self, alloc: Global, input: &[u8]) -> Result<Told, Fail> {
        match &mut self.keeper {
            Some(keeper) => serve(alloc, keeper, input),
            None => Err(not_open()),
        }
    }

    /// Loses all that was not synced. From then on they stop no more.
    pub fn crash(&mut self, alloc: Global) -> Result<(), Fail> {
        let Some(mut files) = self.close() else {
            return Err(not_open());
        };
        files.log.crash();
        files.db.crash();
        drop(mem::replace(self, Disks::over(alloc, files)));
        Ok(())
    }

    fn close(&mut self) -> Option<Fused> {
        match self.keeper.take() {
            Some(keeper) => Some(keeper.into_connection().into_store().close()),
            None => self.files.take(),
        }
    }

    /// Takes a new keeper over the same files, and tells the rows that stand there.
    pub fn renew(&mut self, alloc: Global) -> Result<String, Fail> {
        let Some(keeper) = self.keeper.take() else {
            return Err(not_open());
        };
        let mut conn = keeper.into_connection();
        let rows = rows_of(alloc, &mut conn);
        drop(mem::replace(&mut self.keeper, Some(OpenTables::over(conn))));
        rows
    }

    /// What stands in the files after these rows were put where nothing stands, with the log copied into the database.
    /// The files are not open any more.
    fn filled(&mut self, alloc: Global, rows: Option<&str>) -> Result<Standing, Fail> {
        self.fill(alloc, rows)?;
        self.settled(alloc)
    }

    /// Puts these rows, and takes a new keeper over the same files.
    fn fill(&mut self, alloc: Global, rows: Option<&str>) -> Result<(), Fail> {
        let Some(keeper) = self.keeper.take() else {
            return Err(not_open());
        };
        let mut conn = keeper.into_connection();
        let stood = stand(alloc, &mut conn, rows);
        drop(mem::replace(&mut self.keeper, Some(OpenTables::over(conn))));
        stood
    }

    fn settled(&mut self, alloc: Global) -> Result<Standing, Fail> {
        let Some(keeper) = self.keeper.take() else {
            return Err(not_open());
        };
        let mut store = keeper.into_connection().into_store();
        let is_settled = store.settle();
        let files = store.close();
        let standing = if is_settled {
            standing_in(alloc, &files)
        } else {
            Err(Fail::new("a log was not copied"))
        };
        drop(files);
        standing
    }
}

/// What stands in these files.
fn standing_in(alloc: Global, files: &Fused) -> Result<Standing, Fail> {
    let log = Vec::from_slice(alloc, files.log.inner().bytes())?;
    let db = Vec::from_slice(alloc, files.db.inner().bytes())?;
    Ok(Standing { log, db })
}

fn not_open() -> Fail {
    Fail::new("files that stopped are not open")
}
