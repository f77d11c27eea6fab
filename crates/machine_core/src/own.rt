//! A clerk's own rows, with the numbers that limits speak of.
ghost use Rattle.std.specs.Prelude.{◌≡◌, ◌<◌, length};
ghost use Rattle.desk_valid.specs.Tallies.{active_count, text_bytes};
ghost use Rattle.desk_words.specs.Tables.{rows_of};
ghost use Rattle.machine_core.specs.Own.{own_of};

use desk_valid::own_list;
use desk_words::{BatchRow, ClerkRow, RecordRow, SessionRow, Tables};
use std::marker::Model;

/// The rows that are a clerk's own. How many sessions are active, and how many bytes the texts of sessions and records
/// have, is known and not counted. A clause sees the rows.
#[derive(Debug, Drop)]
pub struct Own<'t> {
    row: &'t ClerkRow,
    sessions: &'t [SessionRow],
    records: &'t [RecordRow],
    batches: &'t [BatchRow],
    active: u64,
    bytes: u64,
}

impl<'t> Model for Own<'t> {
    ghost use Rattle.std.specs.Prelude.{◌≡◌};
    ghost use Rattle.desk_valid.specs.Tallies.{active_count, text_bytes};
    ghost use Rattle.machine_core.specs.Own.{Own};

    ghost Value = { Own };

    ghost view = { λ o. record {
      row = o.row.now;
      sessions = o.sessions.now;
      records = o.records.now;
      batches = o.batches.now;
    } };

    ghost invariant = { λ o. (o.active ≡ active_count o.sessions.now)
        × (o.bytes ≡ text_bytes o.sessions.now o.records.now) };
}

impl<'t> Own<'t> {
    /// The rows of the clerk at a place, counted from 0, with so many active sessions and bytes of texts.
    pub fn at(tables: &'t Tables, place: usize, active: u64, bytes: u64) -> Own<'t>
        requires place { place < length tables.now.clerks.items }
        requires active { active ≡ active_count (own_of (rows_of tables.now) place).sessions }
        requires bytes { bytes ≡ text_bytes (own_of (rows_of tables.now) place).sessions
            (own_of (rows_of tables.now) place).records }
        ensures { result ≡ own_of (rows_of tables.now) place }
    {
        Own {
            row: &tables.clerks.as_slice()[place],
            sessions: own_list(&tables.sessions, place),
            records: own_list(&tables.records, place),
            batches: own_list(&tables.batches, place),
            active,
            bytes,
        }
    }

    /// What the clerk's row keeps.
    pub fn row(&self) -> &'t ClerkRow
        ensures { result.now ≡ self.now.row }
    {
        self.row
    }

    /// The clerk's sessions.
    pub fn sessions(&self) -> &'t [SessionRow]
        ensures { result.now ≡ self.now.sessions }
    {
        self.sessions
    }

    /// The clerk's records.
    pub fn records(&self) -> &'t [RecordRow]
        ensures { result.now ≡ self.now.records }
    {
        self.records
    }

    /// The clerk's batches.
    pub fn batches(&self) -> &'t [BatchRow]
        ensures { result.now ≡ self.now.batches }
    {
        self.batches
    }

    /// How many of the sessions are active.
    pub fn active(&self) -> u64
        ensures { result ≡ active_count self.now.sessions }
    {
        self.active
    }

    /// How many bytes the texts of the sessions and records have.
    pub fn bytes(&self) -> u64
        ensures { result ≡ text_bytes self.now.sessions self.now.records }
    {
        self.bytes
    }
}
