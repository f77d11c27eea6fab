//! The files of a path are opened, and closed.
ghost use Rattle.std.specs.Prelude.{◌≡◌, true, false, None, IsTrue, IfErr, IfOk, IfSome, OnOk};
ghost use Rattle.sqlite.specs.Effect.{Database};
ghost use Rattle.sqlite.specs.Files.{IsOpened, file_state};
ghost use Rattle.sqlite.specs.Held.{IsNew};
ghost use Rattle.sqlite.specs.State.{HasCleanDisk};
ghost use Rattle.sqlite.specs.WalFiles.{image_at};
ghost use Rattle.sqlite_std_file.specs.File.{IsFresh};
ghost use Rattle.sqlite_store.specs.FileStore.{view};
ghost use Rattle.row_store.specs.Calls.{IsAtRest};
ghost use Rattle.row_store.specs.Opening.{HeldDatabase, HeldNothing, IsLeftAlone, IsNamed, IsUncopied, IsUnreached};
ghost use Rattle.row_store.specs.Opening.{Refuses, StaysOpen};
ghost use Rattle.row_store.specs.Table.{no_schema};

use crate::footing::{Footing, footing_of};
use crate::looking::{Lengths, log_path, may_be_opened, measured};
use crate::rest::at_rest;
use sqlite::{Connection, Error, ErrorCode, FileFrom, FileStore, Files, Leftover, Options, Start};
use std::hash::{BuildHasher, RandomState};
use std::io::ErrorKind;
use std::{fs, io};
use thiserror::Error as Why;

/// Why files are not opened.
#[derive(Clone, Copy, Debug, PartialEq, Eq, Why)]
pub enum OpenFault {
    /// By their lengths and first bytes they are no database, or a log that lost its database. They were not opened,
    /// and no log was made beside them.
    #[error("what stands there is no database")]
    Foreign,
    /// They were refused so.
    #[error("{0}")]
    Refused(Error),
    /// They were opened, but the log of a run that was cut off was not copied into the database file so, or they were
    /// not opened again after that.
    #[error("the log is not in its database: {0}")]
    Uncopied(Error),
}

/// What files are opened as, or why they are not, with what is left of them where they were got at.
pub type Opening<S> = Result<
    Connection<FileStore<FileFrom<S>>>,
    (OpenFault, Option<Leftover<FileFrom<S>>>),
>;

/// Opens the files of a path, and makes them where they are missing; a new file ends each page in a sum. The database
/// that they held stands in the connection. Where the desk's table stands, the log of a run that was cut off is copied
/// into the database file first. That the files are those of the path is trusted: no clause ties them to it.
pub fn open<S: Start>(rt: &HostRuntime, path: &str, start: S) -> Opening<S>
    ensures opened { IfOk result (λ conn. HasCleanDisk (file_state conn) → IsTrue (file_state conn).is_open) }
    ensures found { IfOk result (λ conn. HasCleanDisk (file_state conn) → (db : Database)
        → HeldDatabase (image_at S.Start) db → (file_state conn).now ≡ db) }
    ensures nothing { IfOk result (λ conn. HasCleanDisk (file_state conn) → HeldNothing (image_at S.Start)
        → (file_state conn).now.schema ≡ no_schema) }
    ensures sums { IfOk result (λ conn. HasCleanDisk (file_state conn) → HeldNothing (image_at S.Start)
        → (view conn.store).has_sums ≡ true) }
    ensures shielded { IfOk result (λ conn. HasCleanDisk (file_state conn) → (file_state conn).IsShielded) }
    ensures autocommit { IfOk result (λ conn. conn.in_transaction ≡ false) }
    ensures unlimited { IfOk result (λ conn. conn.step_limit ≡ None) }
    ensures named { IfErr result (λ refused. IsNamed refused.0) }
    ensures unreached { IfErr result (λ refused. refused.1 ≡ None → IsUnreached refused.0) }
    ensures refused { IfErr result (λ refused. IfSome refused.1 (λ left. (files : _) × IsFresh true files.log
        × IsFresh false files.db × Refuses files left refused.0)) }
{
    let before = match looked(rt, path) {
        Ok(Some(before)) => before,
        Ok(None) => return Err((OpenFault::Foreign, None)),
        Err(error) => return Err((OpenFault::Refused(unlooked(error)), None)),
    };
    match Connection::open_from(rt, path, true, start) {
        Ok(conn) => without_log(rt, conn, before),
        Err((error, left)) => Err(refused(rt, path, before, error, left)),
    }
}

/// How long the files at a path are, where they may be opened.
fn looked(rt: &HostRuntime, path: &str) -> io::Result<Option<Lengths>> {
    let before = measured(rt, path)?;
    if may_be_opened(rt, path, before)? {
        Ok(Some(before))
    } else {
        Ok(None)
    }
}

/// Why files could not be looked at.
fn unlooked(error: io::Error) -> Error
    ensures { IsUnreached (OpenFault.Refused result) }
{
    match error.kind() {
        ErrorKind::OutOfMemory => Error::SqliteFailure(ErrorCode::OutOfMemory),
        _ => Error::SqliteFailure(ErrorCode::CannotOpen),
    }
}

/// The refusal of files that were so long before, without a log that was made for them.
fn refused<S: Start>(
    rt: &HostRuntime,
    path: &str,
    before: Lengths,
    error: Error,
    left: Option<Leftover<FileFrom<S>>>,
) -> (OpenFault, Option<Leftover<FileFrom<S>>>)
    ensures { result ≡ (OpenFault.Refused error, left) }
{
    if left.is_some() && !before.have_log() {
        forget_log(rt, path);
    }
    (OpenFault::Refused(error), left)
}

/// The connection, or one over the same files whose log was copied, where they were so long before and need it.
fn without_log<S: Start>(
    rt: &HostRuntime,
    conn: Connection<FileStore<FileFrom<S>>>,
    before: Lengths,
) -> Opening<S>
    requires opened { HasCleanDisk (file_state conn) → IsOpened conn }
    requires new { IsNew conn }
    ensures same { IfOk result (λ now. HasCleanDisk (file_state now) → StaysOpen (file_state conn) (file_state now)) }
    ensures nothing { IfOk result (λ now. (file_state conn).now.schema ≡ no_schema → now ≡ conn) }
    ensures shielded { IfOk result (λ now. (HasCleanDisk (file_state conn) → (file_state conn).IsShielded)
        → HasCleanDisk (file_state now) → (file_state now).IsShielded) }
    ensures autocommit { IfOk result (λ now. now.in_transaction ≡ false) }
    ensures unlimited { IfOk result (λ now. now.step_limit ≡ None) }
    ensures uncopied { IfErr result IsUncopied }
{
    if is_settled(before, &conn) {
        return Ok(conn);
    }
    copied(rt, conn)
}

/// Whether nothing has to be copied: the desk's table does not stand, or the log had no room for a commit.
fn is_settled<S: Start>(before: Lengths, conn: &Connection<FileStore<FileFrom<S>>>) -> bool
    ensures { (file_state conn.now).now.schema ≡ no_schema → result ≡ true }
{
    !(before.have_commits() && has_desk(conn))
}

/// Whether the desk's table stands.
fn has_desk<S: Start>(conn: &Connection<FileStore<FileFrom<S>>>) -> bool
    ensures { (file_state conn.now).now.schema ≡ no_schema → result ≡ false }
{
    match footing_of(conn) {
        Ok(footing) => footing == Footing::Desk,
        Err(_) => false,
    }
}

/// Closes the files, by which the log is copied into the database file, and opens them again.
fn copied<S: Start>(rt: &HostRuntime, conn: Connection<FileStore<FileFrom<S>>>) -> Opening<S>
    requires { HasCleanDisk (file_state conn) → IsOpened conn }
    ensures same { IfOk result (λ now. HasCleanDisk (file_state now) → StaysOpen (file_state conn) (file_state now)) }
    ensures shielded { IfOk result (λ now. HasCleanDisk (file_state now) → (file_state now).IsShielded) }
    ensures autocommit { IfOk result (λ now. now.in_transaction ≡ false) }
    ensures unlimited { IfOk result (λ now. now.step_limit ≡ None) }
    ensures uncopied { IfErr result IsUncopied }
{
    let files = match conn.close_files() {
        Ok(files) => files,
        Err((error, _store)) => return Err((OpenFault::Uncopied(error), None)),
    };
    let Ok(seed) = RandomState::new(rt) else {
        return Err((
            OpenFault::Uncopied(Error::SqliteFailure(ErrorCode::CannotOpen)),
            None,
        ));
    };
    match Connection::open_files_with(rt.alloc(), files, Options::new(seed.hash_one(&0u8)), true) {
        Ok(conn) => Ok(conn),
        Err((error, _left)) => Err((OpenFault::Uncopied(error), None)),
    }
}

/// Closes the files, by which the log is copied into the database file: that file alone holds the database then.
pub fn close<S: Start>(
    conn: Connection<FileStore<FileFrom<S>>>,
) -> Result<Files<FileFrom<S>>, Error>
    ensures { IfOk result (IsLeftAlone conn) }
{
    rests(&conn)?;
    match conn.close_files() {
        Ok(files) => Ok(files),
        Err((error, _store)) => Err(error),
    }
}

/// Refuses files with a transaction under way. What `at_rest` asks of a store is shown here, and not where the files
/// are let go, which would cost more (`docs/gate.md`).
fn rests<S: Start>(conn: &Connection<FileStore<FileFrom<S>>>) -> Result<(), Error>
    ensures { OnOk result (IsAtRest (file_state conn.now)) }
{
    at_rest(conn)
}

/// Removes the log at a path, where it has no room for a commit. What is left of its files keeps others out meanwhile.
fn forget_log(rt: &HostRuntime, path: &str) {
    if let Ok(now) = measured(rt, path)
        && !now.have_commits()
        && let Ok(log) = log_path(rt, path)
    {
        let _ = fs::remove_file(rt, log.as_str());
    }
}
