//! Counts of the work that is done. A clause sees both counts.
ghost use Rattle.std.specs.Prelude.{◌≡◌};
ghost use Rattle.desk_base.specs.Counts.{risen};

use std::marker::Model;

/// The counts of look-ups and comparisons. Code that is generic in `L` can't make one.
#[derive(Debug, Drop)]
pub struct Steps<L> {
    own: L,
    looks: u64,
    compares: u64,
}

impl<L> Model for Steps<L> {
    ghost use Rattle.desk_base.specs.Counts.{Counts};

    ghost Value = { Counts };

    ghost view = { λ s. record { looks = s.looks; compares = s.compares } };
}

impl<L> Steps<L> {
    /// Both counts at 0.
    pub fn new(own: L) -> Steps<L>
        ensures { result ≡ record { looks = 0; compares = 0 } }
    {
        Steps {
            own,
            looks: 0,
            compares: 0,
        }
    }

    /// Counts one look-up. A count at its last value, 2^64 - 1, stays there.
    pub fn look(&mut self)
        ensures { self.new ≡ record self.old { looks = risen self.old.looks } }
    {
        self.looks = self.looks.saturating_add(1);
    }

    /// Counts one comparison. A count at its last value, 2^64 - 1, stays there.
    pub fn compare(&mut self)
        ensures { self.new ≡ record self.old { compares = risen self.old.compares } }
    {
        self.compares = self.compares.saturating_add(1);
    }

    /// How often a book was looked into.
    pub fn looks(&self) -> u64
        ensures { result ≡ self.now.looks }
    {
        self.looks
    }

    /// How often a row was compared.
    pub fn compares(&self) -> u64
        ensures { result ≡ self.now.compares }
    {
        self.compares
    }
}
