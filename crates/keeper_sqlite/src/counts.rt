//! How often a keeper was called, and how often it failed.
ghost use Rattle.std.specs.Prelude.{◌≡◌};
ghost use Rattle.desk_base.specs.Counts.{risen};
ghost use Rattle.keeper_core.specs.Keeping.{CountsFailures};

use keeper_core::KeepFail;

/// The counts of a keeper. They never fall, and stand at 2^64 - 1.
#[derive(Debug, Drop)]
pub struct Counts {
    pub calls: u64,
    pub faults: u64,
}

impl Counts {
    /// Of a keeper that was not called.
    pub fn new() -> Counts
        ensures { result ≡ record { calls = 0; faults = 0 } }
    {
        Counts {
            calls: 0,
            faults: 0,
        }
    }

    /// Counts a call by its answer, and hands that on.
    pub fn count<T>(&mut self, answer: Result<T, KeepFail>) -> Result<T, KeepFail>
        ensures same { result ≡ answer }
        ensures called { self.new.calls ≡ risen self.old.calls }
        ensures faults { CountsFailures self.old.faults self.new.faults result }
    {
        self.calls = self.calls.saturating_add(1);
        if let Err(KeepFail::Failed) = answer {
            self.faults = self.faults.saturating_add(1);
        }
        answer
    }
}
