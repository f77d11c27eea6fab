//! What is shown of many sessions and records.
use crate::rows::session::Stage;
use desk_base::{List, Text};

/// How many sessions a page lists at most.
pub const MAX_LISTED: usize = 200;

/// The sessions on one edition, counted.
#[derive(Debug, Drop)]
pub struct ReportLine {
    pub edition: Text,
    pub version: u32,
    pub sessions: u64,
    /// By stage.
    pub active: u64,
    pub committed: u64,
    pub abandoned: u64,
    /// By their answer.
    pub certain: u64,
    pub partial: u64,
    pub conflict: u64,
    /// Their attributes: at the end of the first run for a fix, and without fixes for a conflict.
    pub confirmed: u64,
    pub fixed: u64,
    pub uncovered: u64,
}

/// A line for each edition, over the sessions of one clerk or, where there is none, of all.
#[derive(Debug, Drop)]
pub struct ReportSheet {
    pub clerk: Option<Text>,
    pub lines: List<ReportLine>,
    /// The sum of the sessions.
    pub total: u64,
}

/// A session with its number among the clerk's, counted from 1, the version of an edition that it is on, and its stage.
#[derive(Debug, Drop)]
pub struct SessionLine {
    pub number: u32,
    pub edition: Text,
    pub version: u32,
    pub stage: Stage,
}

/// A clerk's sessions from a number on, [`MAX_LISTED`] at most.
#[derive(Debug, Drop)]
pub struct SessionPage {
    pub lines: List<SessionLine>,
    /// The number of the first session that is left out, where there is one.
    pub next: Option<u32>,
}

/// A record, with its number and that of its session among the clerk's, counted from 1.
#[derive(Debug, Drop)]
pub struct RecordLine {
    pub number: u32,
    pub session: u32,
    pub certain: bool,
    pub texts: List<Text>,
}

/// The records of a clerk over one edition.
#[derive(Debug, Drop)]
pub struct RecordSheet {
    pub attributes: List<Text>,
    pub lines: List<RecordLine>,
}
