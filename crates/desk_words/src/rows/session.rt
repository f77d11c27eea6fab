//! The sessions of clerks.
ghost use Rattle.std.specs.Prelude.{◌≡◌};
ghost use Rattle.desk_words.specs.Words.{stage_word};

use desk_base::{Duplicate, NoMemory, Shared, Text};

/// How far a session has come.
#[derive(Clone, Copy, Debug, PartialEq, Eq)]
pub enum Stage {
    Active,
    Committed,
    Abandoned,
}

impl Stage {
    /// Its word.
    pub fn word(self) -> &'static str
        ensures { result.now ≡ stage_word self }
    {
        match self {
            Stage::Active => "active",
            Stage::Committed => "committed",
            Stage::Abandoned => "abandoned",
        }
    }
}

/// A record that a clerk keys over an edition. A copy shares texts and flags.
#[derive(Debug, Drop)]
pub struct SessionRow {
    /// The place of the edition that the session is pinned to.
    pub edition: u32,
    /// The typed text of each attribute.
    pub typed: Shared<Text>,
    /// For each attribute whether the clerk vouches for the typed text.
    pub confirmed: Shared<bool>,
    pub stage: Stage,
    /// The number of the batch that made the session, counted from 1, or 0.
    pub batch: u32,
}

impl Duplicate for SessionRow {
    fn copy(&self) -> Result<SessionRow, NoMemory> {
        let typed = self.typed.copy()?;
        let confirmed = self.confirmed.copy()?;
        Ok(SessionRow {
            edition: self.edition,
            typed,
            confirmed,
            stage: self.stage,
            batch: self.batch,
        })
    }
}
