//! The desk. A clause sees the rows of its tables and the shelf of its books.
ghost use Rattle.std.specs.Prelude.{◌≡◌, ◌≢◌, ◌<◌, [], length, nat_eq, None, Some, IfErr, IfOk, IsSome};
ghost use Rattle.std.specs.Prelude.{OnErr, OnOk};
ghost use Rattle.std.specs.Map.{lookup};
ghost use Rattle.desk_base.specs.Counts.{risen};
ghost use Rattle.desk_words.specs.Changes.{changed_all};
ghost use Rattle.desk_words.specs.Tables.{published_of, rows_of};
ghost use Rattle.desk_valid.specs.Bindings.{bound_at};
ghost use Rattle.desk_valid.specs.Valid.{AreValid};
ghost use Rattle.keeper_core.specs.Keeping.{IfTold, LoadsHeld, TellsNoMore};
ghost use Rattle.master_index.specs.Held.{brought_first, put_first};
ghost use Rattle.master_index.specs.declared.shelf.Shelved.{Shelved as ShelvedBook};
ghost use Rattle.machine_core.specs.Machine.{machine};
ghost use Rattle.machine_core.specs.Outcomes.{Answers};
ghost use Rattle.machine_core.specs.Shelves.{AreHeld, IsFirst, bound_on};
ghost use Rattle.machine_core.specs.Starting.{AreStarted, CountsStart, IsUnstarted, StartsAvailable};
ghost use Rattle.machine_core.specs.Ticket.{IsNumbered, turn_of};
ghost use Rattle.machine_core.specs.Weighing.{CallsOnce, CountsUnavailable, IsSettleable, IsWeighed};
ghost use Rattle.machine_core.specs.Weighing.{NeverUnavailable};
ghost use Rattle.session_machine.specs.Acting.{IsAct};
ghost use Rattle.session_machine.specs.Booked.{IsBooked};

use crate::clerk::{clerk_look, clerk_write};
use crate::desk_look::desk_look;
use crate::steward::steward_write;
use desk_base::{List, NoMemory};
use desk_totals::Totalled;
use desk_valid::{Bad, valid};
use desk_words::{Change, Command, Refusal, Reply, Tables};
use keeper_core::{KeepFail, Keeper};
use machine_core::{Machine, SettleFail, StartFail, Stop, Weighed, hold, shelved};
use machine_workplace::Workplace;
use master_index::Shelved;
use std::alloc::Global;
use std::marker::Model;

/// Valid tables in memory, over which requests are answered.
#[derive(Drop)]
pub struct Desk {
    totalled: Totalled,
    workplace: Workplace,
}

impl Model for Desk {
    ghost use Rattle.machine_workplace.specs.Ready.{IsReady};
    ghost use Rattle.session_machine.specs.Seats.{Seat};

    ghost Value = { Seat };

    ghost view = { λ d. record { rows = d.totalled; shelf = d.workplace.shelf } };

    ghost invariant = { λ d. IsReady d.totalled d.workplace };
}

impl Desk {
    /// The desk of these tables, with no book on its shelf.
    fn over(alloc: Global, tables: Tables) -> Result<Desk, NoMemory>
        requires { AreValid (rows_of tables) }
        ensures rows { IfOk result (λ desk. desk.rows ≡ rows_of tables) }
        ensures shelf { IfOk result (λ desk. desk.shelf ≡ []) }
    {
        let workplace = Workplace::new(alloc)?;
        let totalled = Totalled::new(alloc, tables)?;
        Ok(Desk {
            totalled,
            workplace,
        })
    }

    /// The tables, which are valid.
    pub fn tables(&self) -> &Tables
        ensures tables { rows_of result.now ≡ self.now.rows }
        ensures valid { AreValid self.now.rows }
    {
        self.totalled.tables()
    }

    /// The numbers of all callers' last accepted requests, added up.
    pub fn turn(&self) -> u64
        ensures { result ≡ turn_of self.now.rows.clerks }
    {
        self.totalled.turn()
    }

    /// Has the book of an edition stand first on the shelf. Where it is held it comes to the front, and the call
    /// succeeds whatever memory there is; else it is built and put in front, where four others are held in place of the
    /// one that was used longest ago. Where there is no memory the shelf is as before.
    pub fn book(&mut self, edition: u32) -> Result<(), NoMemory>
        requires { edition < length self.old.rows.editions }
        ensures first { OnOk result (IsFirst edition self.new.shelf) }
        ensures held { AreHeld (published_of self.new.rows) self.new.shelf }
        ensures rows { self.new.rows ≡ self.old.rows }
        ensures brought { IsSome (lookup (nat_eq edition) self.old.shelf)
            → self.new.shelf ≡ brought_first edition self.old.shelf }
        ensures put { lookup (nat_eq edition) self.old.shelf ≡ None
            → OnOk result ((shelved : ShelvedBook) × (self.new.shelf ≡ put_first edition shelved self.old.shelf)) }
        ensures unchanged { OnErr result (self.new ≡ self.old) }
        ensures succeeds { IsSome (lookup (nat_eq edition) self.old.shelf) → OnErr result ⊥ }
    {
        self.workplace.hold(self.totalled.tables(), edition)
    }

    /// The book of the edition that stands first on the shelf, with its names: that of the edition's row.
    pub fn shelved(&self, edition: u32) -> &Shelved
        requires { IsFirst edition self.now.shelf }
        ensures { bound_at (published_of self.now.rows) edition ≡ Some (bound_on result.now) }
    {
        shelved(&self.workplace.shelf, edition)
    }

    /// What a request comes to: the step of the machine, or that there is no memory.
    fn step(&mut self, command: &Command) -> Result<(Reply, List<Change>), Stop>
        requires { IsNumbered command.now }
        ensures answers { Answers result (machine self.old.rows command.now) }
        ensures booked { IfOk result (λ made. IsBooked self.old.rows command.now made.0 self.new.shelf) }
        ensures rows { self.new.rows ≡ self.old.rows }
    {
        let (totalled, workplace) = (&self.totalled, &mut self.workplace);
        match command {
            Command::Steward(ticket, work) => steward_write(totalled, workplace, ticket, work),
            Command::Clerk(name, ticket, work) => clerk_write(
                totalled, workplace, name, ticket, work,
            ),
            Command::Look(name, look) => clerk_look(totalled, workplace, name, look),
            Command::Desk(look) => desk_look(totalled, workplace, look),
        }
    }

    /// Weighs a request, settles what it changes with the keeper, and answers the reply. Where the keeper failed or
    /// there was no memory, that is the reply, and nothing is changed. The keeper is called at most once, and not where
    /// nothing is changed.
    pub fn act<K: Keeper>(&mut self, keeper: &mut K, command: &Command) -> Reply
        requires numbered { IsNumbered command.now }
        requires told { IfTold (K.tables keeper.old) self.old.rows }
        ensures acts { IsAct self.old.rows self.new.rows command.now result
            (record { calls = K.calls keeper.old; faults = K.faults keeper.old })
            (record { calls = K.calls keeper.new; faults = K.faults keeper.new }) (keeper.new ≡ keeper.old) }
        ensures booked { IsBooked self.old.rows command.now result self.new.shelf }
        ensures told { IfTold (K.tables keeper.new) self.new.rows }
        ensures steady { K.is_steady keeper.old
            → (result ≢ Reply.Refused Refusal.Unavailable) × K.is_steady keeper.new }
    {
        let weighed = self.weigh(command);
        match self.settle(keeper, weighed) {
            Ok(reply) => reply,
            Err(SettleFail::Unavailable) => Reply::Refused(Refusal::Unavailable),
            Err(SettleFail::NoMemory) => Reply::Refused(Refusal::NoMemory),
        }
    }
}

impl Machine for Desk {
    ghost rows = { λ d. d.rows };

    fn start<K: Keeper>(alloc: Global, keeper: &mut K) -> Result<Desk, StartFail>
        ensures started { IfOk result
            (λ desk. AreStarted (K.tables keeper.old) (K.tables keeper.new) desk.rows) }
        ensures shelf { IfOk result (λ desk. desk.shelf ≡ []) }
        ensures kept { IfOk result (λ desk. LoadsHeld (K.holds keeper.old) (K.tables keeper.new) desk.rows) }
        ensures unstarted { IfErr result
            (IsUnstarted (K.tables keeper.old) (K.tables keeper.new) (K.faults keeper.old) (K.faults keeper.new)) }
        ensures called { K.calls keeper.new ≡ risen (K.calls keeper.old) }
        ensures faults { CountsStart (K.faults keeper.old) (K.faults keeper.new) result }
        ensures steady { K.is_steady keeper.old → StartsAvailable result × K.is_steady keeper.new }
    {
        let tables = match keeper.load() {
            Ok(tables) => tables,
            Err(KeepFail::Failed) => return Err(StartFail::Unavailable),
            Err(KeepFail::NoMemory) => return Err(StartFail::NoMemory),
        };
        match valid(alloc, &tables) {
            Ok(()) => {}
            Err(Bad::Damaged(damage)) => return Err(StartFail::Damaged(damage)),
            Err(Bad::NoMemory) => return Err(StartFail::NoMemory),
        }
        Desk::over(alloc, tables).map_err(|_| StartFail::NoMemory)
    }

    fn weigh(&mut self, command: &Command) -> Weighed
        requires { IsNumbered command.now }
        ensures weighed { IsWeighed self.old.rows command.now result }
        ensures booked { IsBooked self.old.rows command.now result.reply self.new.shelf }
        ensures settleable { IsSettleable self.old.rows result }
        ensures rows { self.new.rows ≡ self.old.rows }
    {
        let alloc = self.workplace.alloc;
        let turn = self.turn();
        let (reply, changes) = match self.step(command) {
            Ok(made) => made,
            Err(Stop::Refused(refusal)) => (Reply::Refused(refusal), List::new(alloc)),
            Err(Stop::NoMemory) => (Reply::Refused(Refusal::NoMemory), List::new(alloc)),
        };
        Weighed {
            reply,
            turn,
            changes,
        }
    }

    fn settle<K: Keeper>(&mut self, keeper: &mut K, weighed: Weighed) -> Result<Reply, SettleFail>
        requires told { IfTold (K.tables keeper.old) self.old.rows }
        requires settleable { IsSettleable self.old.rows weighed }
        ensures reply { IfOk result (λ reply. reply ≡ weighed.reply) }
        ensures rows { OnOk result (self.new.rows ≡ changed_all self.old.rows weighed.changes) }
        ensures unchanged { OnErr result (self.new.rows ≡ self.old.rows) }
        ensures shelf { self.new.shelf ≡ self.old.shelf }
        ensures told { IfTold (K.tables keeper.new) self.new.rows }
        ensures no_more { TellsNoMore (K.tables keeper.old) (K.tables keeper.new) }
        ensures idle { weighed.changes ≡ [] → keeper.new ≡ keeper.old }
        ensures idle_too { weighed.changes ≡ [] → OnErr result ⊥ }
        ensures called { CallsOnce weighed.changes (K.calls keeper.old) (K.calls keeper.new) result }
        ensures faults { CountsUnavailable (K.faults keeper.old) (K.faults keeper.new) result }
        ensures steady { K.is_steady keeper.old → NeverUnavailable result × K.is_steady keeper.new }
    {
        let Weighed { reply, changes, .. } = weighed;
        let kept = self.totalled.settle(self.workplace.alloc, keeper, changes);
        kept.and(Ok(reply)).map_err(|fail| match fail {
            KeepFail::Failed => SettleFail::Unavailable,
            KeepFail::NoMemory => SettleFail::NoMemory,
        })
    }
}
