//! How often an end of a link has failed. A clause sees the number.
ghost use Rattle.std.specs.Prelude.{◌≡◌, ◌≤◌};
ghost use Rattle.desk_base.specs.Counts.{risen};

use desk_base::{Failed, FaultCount};
use std::marker::Model;

/// The faults of an end of a link, which is lost with the first of them.
#[derive(Drop)]
pub(crate) struct EndFaults {
    count: FaultCount,
    is_lost: bool,
}

impl Model for EndFaults {
    ghost use Rattle.std.specs.Prelude.{ℕ};

    ghost Value = { ℕ };

    ghost view = { λ f. f.count };
}

impl EndFaults {
    /// No call has failed yet.
    pub(crate) fn none() -> EndFaults
        ensures { result ≡ 0 }
    {
        EndFaults {
            count: FaultCount::at(0),
            is_lost: false,
        }
    }

    /// Whether a call has failed, so that the peer is not waited for any more.
    pub(crate) fn is_lost(&self) -> bool {
        self.is_lost
    }

    /// Counts a call that has failed. The end is lost from then on.
    pub(crate) fn lose(&mut self) -> Failed
        ensures risen { self.new ≡ risen self.old }
        ensures later { self.old ≤ self.new }
    {
        self.is_lost = true;
        self.count.rise();
        Failed
    }
}
