//! Why a part of the machine stops.
ghost use Rattle.std.specs.Prelude.{◌≡◌};
ghost use Rattle.machine_core.specs.declared.stop.Stop.TheVariants as stop;

use desk_base::NoMemory;
use desk_words::Refusal;

/// Why a part of the machine stops.
#[derive(Debug, Drop)]
pub enum Stop {
    /// The request is refused.
    Refused(Refusal),
    /// There was no memory. It may come in place of any other answer.
    NoMemory,
}

impl From<NoMemory> for Stop {
    ghost from_gives = { λ _ result. result ≡ stop.NoMemory };

    fn from(_fault: NoMemory) -> Stop {
        Stop::NoMemory
    }
}
