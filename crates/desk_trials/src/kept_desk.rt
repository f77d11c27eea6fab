//! A desk with its keeper in memory. A clause sees what the keeper has: its rows, which are the desk's too, which of
//! its calls fail, and how many have.
ghost use Rattle.std.specs.Prelude.{◌≡◌, ◌≢◌, ℕ, [], IfErr, IfOk, Some};
ghost use Rattle.desk_words.specs.Tables.{AreTables, Rows, empty_rows, rows_of};
ghost use Rattle.machine_core.specs.Starting.{AreStarted, IsUnstarted, StartsAvailable};
ghost use Rattle.machine_core.specs.Ticket.{IsNumbered, turn_of};
ghost use Rattle.session_machine.specs.Acting.{IsAct};

use desk_base::List;
use desk_words::{Command, Refusal, Reply, Tables};
use keeper_core::MemKeeper;
use machine_core::{Machine, StartFail};
use session_machine::Desk;
use std::alloc::Global;
use std::marker::Model;
use std::test::Fail;

/// A desk with its keeper.
#[derive(Drop)]
pub struct KeptDesk {
    desk: Desk,
    keeper: MemKeeper,
}

impl Model for KeptDesk {
    ghost use Rattle.std.specs.Prelude.{◌≡◌};
    ghost use Rattle.keeper_core.specs.Keeping.{Kept};

    ghost Value = { Kept };

    ghost view = { λ d. d.keeper };

    ghost invariant = { λ d. d.keeper.rows ≡ d.desk.rows };
}

impl KeptDesk {
    /// A new desk, none of whose keeper's calls fails.
    pub fn fresh(alloc: Global) -> Result<KeptDesk, Fail>
        ensures empty { IfOk result (λ desk. desk.rows ≡ empty_rows) }
        ensures steady { IfOk result (λ desk. desk.schedule.fails ≡ []) }
    {
        Ok(KeptDesk::begin(alloc, Tables::empty(alloc)?, List::new(alloc))?)
    }

    /// The desk over these tables, with a keeper of whose calls these fail.
    pub fn begin(alloc: Global, tables: Tables, fails: List<u64>) -> Result<KeptDesk, StartFail>
        requires { AreTables (rows_of tables) }
        ensures started { IfOk result (λ desk. AreStarted (Some (rows_of tables)) (Some desk.rows) desk.rows) }
        ensures unstarted { IfErr result (λ fail. (left : Rows) × (faults : ℕ)
            × IsUnstarted (Some (rows_of tables)) (Some left) 0 faults fail) }
        ensures steady { fails ≡ [] → StartsAvailable result × IfOk result (λ desk. desk.schedule.fails ≡ []) }
    {
        let mut keeper = MemKeeper::new(tables, fails);
        let desk = Desk::start(alloc, &mut keeper)?;
        Ok(KeptDesk { desk, keeper })
    }

    /// The reply to a request, which the machine gives, and whose changes are made; or that the keeper failed, or that
    /// there was no memory, and then nothing is changed.
    pub fn act(&mut self, command: &Command) -> Reply
        requires { IsNumbered command.now }
        ensures acts { IsAct self.old.rows self.new.rows command.now result
            (record { calls = self.old.schedule.calls; faults = self.old.faults })
            (record { calls = self.new.schedule.calls; faults = self.new.faults }) (self.new ≡ self.old) }
        ensures steady { self.old.schedule.fails ≡ []
            → (result ≢ Reply.Refused Refusal.Unavailable) × (self.new.schedule.fails ≡ []) }
    {
        self.desk.act(&mut self.keeper, command)
    }

    /// The tables of the desk.
    pub fn tables(&self) -> &Tables
        ensures { rows_of result.now ≡ self.now.rows }
    {
        self.desk.tables()
    }

    /// The numbers of all callers' last accepted requests, added up.
    pub fn turn(&self) -> u64
        ensures { result ≡ turn_of self.now.rows.clerks }
    {
        self.desk.turn()
    }

    /// Has the book of the edition at a place, counted from 0, stand first on the shelf, where there is that edition.
    pub fn hold(&mut self, edition: u32) -> Result<(), Fail>
        ensures { self.new ≡ self.old }
    {
        if (edition as usize) < self.desk.tables().editions.len() {
            self.desk.book(edition)?;
        }
        Ok(())
    }

    /// The keeper alone.
    pub fn into_keeper(self) -> MemKeeper
        ensures { result ≡ self }
    {
        self.keeper
    }
}
