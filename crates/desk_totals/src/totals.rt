//! What is counted of a clerk.
ghost use Rattle.std.specs.Prelude.{◌≡◌, ◌+◌, ◌<◌, ◌≤◌, ◌^◌, All, length};
ghost use Rattle.desk_words.specs.Changes.{put};
ghost use Rattle.desk_words.specs.Tables.{IsShort};
ghost use Rattle.desk_valid.specs.Tallies.{active_count, is_active, typed_bytes};
ghost use Rattle.desk_totals.specs.Totals.{AreTexts, totals_of};

use crate::texts::{bytes_in, record_bytes, typed_bytes};
use desk_words::{RecordRow, SessionRow, Stage};

/// What is counted of a clerk.
#[derive(Clone, Copy, Debug)]
pub(crate) struct Totals {
    /// How many sessions are active.
    pub(crate) active: u64,
    /// How many bytes the texts of the sessions and records have. Tables need not be valid between two changes that are
    /// made together, and rows that are not valid may have so many texts that a `u64` is too small.
    pub(crate) bytes: u128,
}

impl Totals {
    /// What is counted of a clerk with these sessions and records.
    pub(crate) fn of(sessions: &[SessionRow], records: &[RecordRow]) -> Totals
        requires sessions { IsShort sessions.now }
        requires records { IsShort records.now }
        ensures totals { result ≡ totals_of sessions.now records.now }
        ensures typed { All (λ session. AreTexts session.typed) sessions.now }
        ensures kept { All (λ row. AreTexts row.texts) records.now }
    {
        Totals {
            active: active_count(sessions),
            bytes: typed_bytes(sessions) + record_bytes(records),
        }
    }
}

/// How many of the sessions are active.
fn active_count(sessions: &[SessionRow]) -> u64
    ensures { result ≡ active_count sessions.now }
{
    sessions
        .iter()
        .filter(|session| is_active(session.stage))
        .count() as u64
}

/// Whether a session at this stage is active.
fn is_active(stage: Stage) -> bool
    ensures { result ≡ is_active stage }
{
    stage == Stage::Active
}

/// How many sessions are active once one is put at a place, where so many were.
pub(crate) fn active_with(
    active: u64,
    sessions: &[SessionRow],
    place: usize,
    row: &SessionRow,
) -> u64
    requires active { active ≡ active_count sessions.now }
    requires short { IsShort sessions.now }
    requires place { place ≤ length sessions.now }
    ensures { result ≡ active_count (put sessions.now place row.now) }
{
    let before = match sessions.get(place) {
        Some(session) => u64::from(is_active(session.stage)),
        None => 0,
    };
    active - before + u64::from(is_active(row.stage))
}

/// How many bytes a clerk's texts have once a session is put at a place, where they had so many.
pub(crate) fn bytes_with(
    bytes: u128,
    sessions: &[SessionRow],
    place: usize,
    row: &SessionRow,
) -> u128
    requires bytes { typed_bytes sessions.now ≤ bytes }
    requires few { bytes < 2 ^ 127 }
    requires place { place ≤ length sessions.now }
    ensures bytes { result + typed_bytes sessions.now ≡ bytes + typed_bytes (put sessions.now place row.now) }
    ensures texts { AreTexts row.now.typed }
{
    let before = match sessions.get(place) {
        Some(session) => bytes_in(session.typed.as_slice()),
        None => 0,
    };
    bytes - before + bytes_in(row.typed.as_slice())
}
