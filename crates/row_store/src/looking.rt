//! What stands at a path before its files are opened, by their lengths and first bytes.
use sqlite::{Error, ErrorCode};
use std::alloc::AllocError;
use std::io::{ErrorKind, Read};
use std::{fs, io};

/// How a database file begins.
const MAGIC: &[u8] = b"SQLite format 3\0";

/// How many bytes a log has that has room for a commit.
const COMMIT_ROOM: u64 = 56;

/// How long the database file at a path and its log are, where they are there.
#[derive(Clone, Copy, Debug, PartialEq, Eq)]
pub struct Lengths {
    file: Option<u64>,
    log: Option<u64>,
}

impl Lengths {
    /// Whether the log is there.
    pub fn have_log(self) -> bool {
        self.log.is_some()
    }

    /// Whether the log has room for a commit.
    pub fn have_commits(self) -> bool {
        self.log.is_some_and(|length| length >= COMMIT_ROOM)
    }

    /// Whether something stands in the log.
    fn have_begun_log(self) -> bool {
        self.log.is_some_and(|length| length > 0)
    }
}

/// The path of the log beside the database file at a path, with no link in it.
pub fn log_path(rt: &HostRuntime, path: &str) -> io::Result<String> {
    match fs::canonicalize(rt, path) {
        Ok(real) => Ok(format!(in rt.alloc(); "{}-wal", real.as_str())?),
        Err(error) if error.kind() == ErrorKind::NotFound => {
            Ok(format!(in rt.alloc(); "{path}-wal")?)
        }
        Err(error) => Err(error),
    }
}

/// How long the files at a path are.
pub fn measured(rt: &HostRuntime, path: &str) -> io::Result<Lengths> {
    let log = log_path(rt, path)?;
    Ok(Lengths {
        file: length(rt, path)?,
        log: length(rt, log.as_str())?,
    })
}

/// How long a file is, where it is there.
fn length(rt: &HostRuntime, path: &str) -> io::Result<Option<u64>> {
    match fs::metadata(rt, path) {
        Ok(found) => Ok(Some(found.len())),
        Err(error) if error.kind() == ErrorKind::NotFound => Ok(None),
        Err(error) => Err(error),
    }
}

/// Whether files of these lengths may be opened. What an open that was cut off leaves may be: an empty file beside a
/// log with no room for a commit, or, beside a log that was begun, one byte that is 0 or something longer. No file that
/// has a log with something in it is read here, but one of one byte, since it may be in use.
pub fn may_be_opened(rt: &HostRuntime, path: &str, lengths: Lengths) -> io::Result<bool> {
    match lengths.file {
        None | Some(0) => Ok(!lengths.have_commits()),
        Some(1) => Ok(lengths.have_begun_log() && begins_with(rt, path, &[0])?),
        Some(_) => Ok(lengths.have_begun_log() || begins_with(rt, path, MAGIC)?),
    }
}

/// Whether a file begins with these bytes.
fn begins_with(rt: &HostRuntime, path: &str, wanted: &[u8]) -> io::Result<bool> {
    let mut file = fs::open(rt, path)?;
    'bytes: for expected in wanted {
        let mut byte = [0];
        if file.read(&mut byte)? == 0 || byte[0] != *expected {
            return Ok(false);
        }
    }
    Ok(true)
}
