//! What answers requests over tables: it weighs what a request comes to, and settles it with a keeper.
ghost use Rattle.std.specs.Prelude.{◌≡◌, [], IfErr, IfOk, OnErr, OnOk};
ghost use Rattle.desk_base.specs.Counts.{risen};
ghost use Rattle.desk_words.specs.Changes.{changed_all};
ghost use Rattle.desk_words.specs.Tables.{Rows};
ghost use Rattle.keeper_core.specs.Keeping.{IfTold, LoadsHeld, TellsNoMore};
ghost use Rattle.machine_core.specs.Starting.{AreStarted, CountsStart, IsUnstarted, StartsAvailable};
ghost use Rattle.machine_core.specs.Ticket.{IsNumbered};
ghost use Rattle.machine_core.specs.Weighing.{CallsOnce, CountsUnavailable, IsSettleable, IsWeighed};
ghost use Rattle.machine_core.specs.Weighing.{NeverUnavailable};

use desk_base::List;
use desk_valid::Damage;
use desk_words::{Change, Command, Reply};
use keeper_core::Keeper;
use std::alloc::Global;

/// What a request comes to: its reply, and what it changes.
#[derive(Debug, Drop)]
pub struct Weighed {
    /// What is replied, where what it changes is kept.
    pub reply: Reply,
    /// The turn of the tables over which it was weighed: the numbers of all callers' last accepted requests, added up.
    pub turn: u64,
    /// What it changes, the first change first.
    pub changes: List<Change>,
}

/// Why what a request changes was not kept.
#[derive(Clone, Copy, Debug, PartialEq, Eq)]
pub enum SettleFail {
    /// The keeper failed, and its count of faults has risen, or stands at its last value.
    Unavailable,
    /// There was no memory. It may come in place of any other answer where something is to be changed.
    NoMemory,
}

/// Why a machine does not begin.
#[derive(Clone, Copy, Debug, PartialEq, Eq)]
pub enum StartFail {
    /// The keeper's tables are not valid. This is their first damaged row.
    Damaged(Damage),
    /// The keeper failed, and its count of faults has risen, or stands at its last value.
    Unavailable,
    /// There was no memory. It may come in place of any other answer.
    NoMemory,
}

/// What answers requests over valid tables.
pub trait Machine {
    /// The tables.
    ghost rows: { Self → Rows };

    /// A machine over the tables that the keeper loads. The load is the one call of the keeper. Where the keeper fails,
    /// its tables stay.
    fn start<K: Keeper>(alloc: Global, keeper: &mut K) -> Result<Self, StartFail>
        ensures started { IfOk result
            (λ machine. AreStarted (K.tables keeper.old) (K.tables keeper.new) (rows machine)) }
        ensures kept { IfOk result (λ machine. LoadsHeld (K.holds keeper.old) (K.tables keeper.new) (rows machine)) }
        ensures unstarted { IfErr result
            (IsUnstarted (K.tables keeper.old) (K.tables keeper.new) (K.faults keeper.old) (K.faults keeper.new)) }
        ensures called { K.calls keeper.new ≡ risen (K.calls keeper.old) }
        ensures faults { CountsStart (K.faults keeper.old) (K.faults keeper.new) result }
        ensures steady { K.is_steady keeper.old → StartsAvailable result × K.is_steady keeper.new };

    /// What a request comes to: the step of the machine, or that there is no memory. The tables stay.
    fn weigh(&mut self, command: &Command) -> Weighed
        requires { IsNumbered command.now }
        ensures weighed { IsWeighed (rows self.old) command.now result }
        ensures settleable { IsSettleable (rows self.old) result }
        ensures rows { rows self.new ≡ rows self.old };

    /// Makes what was weighed over these tables, in the keeper and in the tables, or in neither. The keeper is called
    /// once; where there was no memory it may not have been called. Without changes it is not called, and nothing
    /// refuses.
    fn settle<K: Keeper>(&mut self, keeper: &mut K, weighed: Weighed) -> Result<Reply, SettleFail>
        requires told { IfTold (K.tables keeper.old) (rows self.old) }
        requires settleable { IsSettleable (rows self.old) weighed }
        ensures reply { IfOk result (λ reply. reply ≡ weighed.reply) }
        ensures rows { OnOk result (rows self.new ≡ changed_all (rows self.old) weighed.changes) }
        ensures unchanged { OnErr result (rows self.new ≡ rows self.old) }
        ensures told { IfTold (K.tables keeper.new) (rows self.new) }
        ensures no_more { TellsNoMore (K.tables keeper.old) (K.tables keeper.new) }
        ensures idle { weighed.changes ≡ [] → keeper.new ≡ keeper.old }
        ensures idle_too { weighed.changes ≡ [] → OnErr result ⊥ }
        ensures called { CallsOnce weighed.changes (K.calls keeper.old) (K.calls keeper.new) result }
        ensures faults { CountsUnavailable (K.faults keeper.old) (K.faults keeper.new) result }
        ensures steady { K.is_steady keeper.old → NeverUnavailable result × K.is_steady keeper.new };
}
