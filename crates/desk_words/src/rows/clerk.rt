//! The callers: the steward in row 0, and the clerks after.
use crate::rows::act::Act;
use desk_base::{Duplicate, NoMemory, Text};

/// The SHA-256 value of a request, by which it is known when it comes again.
#[derive(Clone, Copy, Debug, PartialEq, Eq)]
pub struct Digest {
    pub bytes: [u8; 32],
}

/// A caller, with the last request that was accepted.
#[derive(Debug, Drop)]
pub struct ClerkRow {
    pub name: Text,
    /// The number of the last accepted request, or 0 where there is none.
    pub last: u64,
    /// The digest of that request, or zeros.
    pub digest: Digest,
    pub act: Act,
    /// The place of the row that the act is about, counted from 0. A session, a record or a batch is counted in
    /// the caller's own list.
    pub target: u32,
}

impl Duplicate for ClerkRow {
    fn copy(&self) -> Result<ClerkRow, NoMemory> {
        Ok(ClerkRow {
            name: self.name.copy()?,
            last: self.last,
            digest: self.digest,
            act: self.act,
            target: self.target,
        })
    }
}
