//! What a report counts of sessions.
ghost use Rattle.std.specs.Prelude.{◌≡◌, ◌+◌, ◌-◌, ◌≤◌, ◌^◌, ℕ, []};
ghost use Rattle.desk_base.specs.declared.limits.TheConstants.{MAX_ATTRIBUTES};
ghost use Rattle.machine_views.specs.Reporting.{AreFew, AreStagesUpTo, counts_of, with_stage, with_upshot};
ghost use Rattle.machine_workplace.specs.Upshots.{AreCellsUpTo};

use crate::counting::Verdicts;
use desk_words::Stage;
use machine_workplace::{Cells, Upshot};

/// How many sessions are at each stage.
#[derive(Clone, Copy, Debug, PartialEq, Eq)]
pub struct Stages {
    pub active: u64,
    pub committed: u64,
    pub abandoned: u64,
}

impl Stages {
    /// None yet.
    pub fn none() -> Stages
        ensures { result ≡ record { active = 0; committed = 0; abandoned = 0 } }
    {
        Stages {
            active: 0,
            committed: 0,
            abandoned: 0,
        }
    }

    /// One more at this stage.
    pub fn with(self, stage: Stage) -> Stages
        requires { AreStagesUpTo (2 ^ 64 - 2) self }
        ensures more { result ≡ with_stage self stage }
        ensures most { (most : ℕ) → AreStagesUpTo most self → AreStagesUpTo (most + 1) result }
    {
        match stage {
            Stage::Active => Stages {
                active: self.active + 1,
                ..self
            },
            Stage::Committed => Stages {
                committed: self.committed + 1,
                ..self
            },
            Stage::Abandoned => Stages {
                abandoned: self.abandoned + 1,
                ..self
            },
        }
    }
}

/// Sessions, counted: how many there are, at which stages, with which verdicts, and their attributes.
#[derive(Clone, Copy, Debug, PartialEq, Eq)]
pub struct Counts {
    pub sessions: u64,
    pub stages: Stages,
    pub verdicts: Verdicts,
    pub cells: Cells,
}

impl Counts {
    /// None yet.
    pub fn none() -> Counts
        ensures none { result ≡ counts_of [] }
        ensures few { AreFew 0 result }
    {
        Counts {
            sessions: 0,
            stages: Stages::none(),
            verdicts: Verdicts::none(),
            cells: Cells::none(),
        }
    }

    /// One more session at this stage, with what it came to.
    pub fn with(self, stage: Stage, upshot: Upshot) -> Counts
        requires few { AreFew (2 ^ 41) self }
        requires narrow { AreCellsUpTo MAX_ATTRIBUTES upshot.cells }
        ensures more { result ≡ with_upshot self stage upshot }
        ensures most { (most : ℕ) → AreFew most self → AreFew (most + 1) result }
    {
        Counts {
            sessions: self.sessions + 1,
            stages: self.stages.with(stage),
            verdicts: self.verdicts.with(upshot.verdict),
            cells: self.cells.and(upshot.cells),
        }
    }
}
