//! How often a device has failed. A clause sees the number.
ghost use Rattle.std.specs.Prelude.{◌≡◌, ◌≤◌};
ghost use Rattle.desk_base.specs.Counts.{risen};

use std::marker::Model;

/// A count of faults. It never falls, and stands at 2^64 - 1.
#[derive(Debug, Drop)]
pub struct FaultCount {
    count: u64,
}

impl Model for FaultCount {
    ghost use Rattle.std.specs.Prelude.{ℕ};

    ghost Value = { ℕ };

    ghost view = { λ f. f.count };
}

impl FaultCount {
    /// The count after so many faults.
    pub fn at(count: u64) -> FaultCount
        ensures { result ≡ count }
    {
        FaultCount { count }
    }

    /// Counts one fault more.
    pub fn rise(&mut self)
        ensures risen { self.new ≡ risen self.old }
        ensures later { self.old ≤ self.new }
    {
        self.count = self.count.saturating_add(1);
    }
}
