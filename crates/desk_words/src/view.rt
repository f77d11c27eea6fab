//! A session as it is shown.
use crate::rows::session::Stage;
use desk_base::{List, Text};

/// How an attribute came to its value.
#[derive(Debug, Drop)]
pub enum Shown {
    Uncovered,
    Confirmed,
    /// By this rule with this row of this master, counted from 1.
    Fixed { rule: Text, master: Text, row: u32 },
}

/// An attribute with its value.
#[derive(Debug, Drop)]
pub struct ViewCell {
    pub name: Text,
    pub value: Text,
    pub shown: Shown,
}

/// What the rules make of a session. A step is the name of a rule and a row of its master, counted from 1.
#[derive(Debug, Drop)]
pub enum Outcome {
    /// Every maximal run ends in one record. `certain` says whether every attribute is covered there, and
    /// `dissent` is the least step that holds there and says otherwise.
    Fix {
        certain: bool,
        dissent: Option<(Text, u32)>,
    },
    /// The least maximal run that ends in another record than the first.
    Conflict {
        second: List<(Text, u32)>,
    },
}

/// A session as it stands: at the end of the first run for a fix, and without fixes for a conflict.
#[derive(Debug, Drop)]
pub struct View {
    /// The session's number among its clerk's, counted from 1.
    pub session: u32,
    /// The edition that the session is pinned to, with its version.
    pub edition: Text,
    pub version: u32,
    pub stage: Stage,
    pub cells: List<ViewCell>,
    /// The least maximal run.
    pub first: List<(Text, u32)>,
    pub outcome: Outcome,
}
