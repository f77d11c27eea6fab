//! What keeps the tables. A clause sees them where the keeper tells them, how often it was called, and how often it
//! has failed.
ghost use Rattle.std.specs.Prelude.{◌≡◌, ℕ, Option, IfOk, OnOk, OnErr};
ghost use Rattle.desk_base.specs.Counts.{risen};
ghost use Rattle.desk_words.specs.Tables.{AreTables, Rows, rows_of};
ghost use Rattle.keeper_core.specs.Keeping.{ChangeTold, CountsFailures, FitTold, IsLoaded};
ghost use Rattle.keeper_core.specs.Keeping.{LoadsHeld, NeverFails, StayTold};
ghost use Rattle.keeper_core.specs.declared.keeper.KeepFail.TheVariants as fail;

use desk_base::{List, NoMemory};
use desk_words::{Change, Tables};

/// Why a keeper refuses.
#[derive(Clone, Copy, Debug, PartialEq, Eq)]
pub enum KeepFail {
    /// The keeper failed, and its count of faults has risen, or stands at its last value.
    Failed,
    /// There was no memory. It may come in place of any other answer.
    NoMemory,
}

impl From<NoMemory> for KeepFail {
    ghost from_gives = { λ _ result. result ≡ fail.NoMemory };

    fn from(_fault: NoMemory) -> KeepFail {
        KeepFail::NoMemory
    }
}

/// What keeps the tables.
pub trait Keeper {
    /// The tables, where the keeper tells them.
    ghost tables: { Self → Option Rows };

    /// How often it was called. Each call raises it by one, up to 2^64 - 1, where it stands.
    ghost calls: { Self → ℕ };

    /// How often it has failed. Each failure raises it by one, up to 2^64 - 1, where it stands, and nothing else does.
    ghost faults: { Self → ℕ };

    /// It holds these tables, where that is known before it tells them. What it holds is what a load answers.
    ghost holds: { Self → Rows → Type 0 };

    /// The keeper answers each call from now on, where memory is found.
    ghost is_steady: { Self → Type 0 };

    /// The tables that are kept. Nothing is changed.
    fn load(&mut self) -> Result<Tables, KeepFail>
        ensures loaded { IfOk result (λ made. IsLoaded (tables self.old) (tables self.new) (rows_of made)) }
        ensures kept { IfOk result (λ made. LoadsHeld (holds self.old) (tables self.new) (rows_of made)) }
        ensures whole { IfOk result (λ made. AreTables (rows_of made)) }
        ensures unchanged { OnErr result (StayTold (tables self.old) (tables self.new)) }
        ensures called { calls self.new ≡ risen (calls self.old) }
        ensures faults { CountsFailures (faults self.old) (faults self.new) result }
        ensures steady { is_steady self.old → NeverFails result × is_steady self.new };

    /// Makes all changes in one step, the first one first, or none of them.
    fn commit(&mut self, changes: &List<Change>) -> Result<(), KeepFail>
        requires { FitTold (tables self.old) changes.now }
        ensures committed { OnOk result (ChangeTold (tables self.old) (tables self.new) changes.now) }
        ensures unchanged { OnErr result (StayTold (tables self.old) (tables self.new)) }
        ensures called { calls self.new ≡ risen (calls self.old) }
        ensures faults { CountsFailures (faults self.old) (faults self.new) result }
        ensures steady { is_steady self.old → NeverFails result × is_steady self.new };
}
