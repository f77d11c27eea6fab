//! Why a part of the filter stops.
ghost use Rattle.std.specs.Prelude.{◌≡◌};
ghost use Rattle.sheet_filter.specs.Cleaning.{layout_stop};
ghost use Rattle.sheet_filter.specs.declared.stop.Stop.TheVariants as stop;

use desk_base::{Failed, NoMemory};
use sheet_clean::{LayoutFault, SheetFault};

/// Why no more rows are taken.
#[derive(Clone, Copy, Debug, PartialEq, Eq)]
pub(crate) enum Stop {
    /// The header or a row has this fault.
    Refused(SheetFault),
    /// A write failed.
    Failed,
    /// There was no memory.
    NoMemory,
}

impl From<Failed> for Stop {
    ghost from_gives = { λ _ result. result ≡ stop.Failed };

    fn from(_failed: Failed) -> Stop {
        Stop::Failed
    }
}

impl From<NoMemory> for Stop {
    ghost from_gives = { λ _ result. result ≡ stop.NoMemory };

    fn from(_want: NoMemory) -> Stop {
        Stop::NoMemory
    }
}

impl From<LayoutFault> for Stop {
    ghost from_gives = { λ fault result. result ≡ layout_stop fault };

    fn from(fault: LayoutFault) -> Stop {
        match fault {
            LayoutFault::Refused(fault) => Stop::Refused(fault),
            LayoutFault::NoMemory => Stop::NoMemory,
        }
    }
}
