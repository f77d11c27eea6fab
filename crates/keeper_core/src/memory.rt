//! A keeper in memory, some of whose calls are to fail. A clause sees its tables, its counts and which calls fail.
ghost use Rattle.std.specs.Prelude.{◌≡◌, ◌↔◌, [], Some, Err, IfOk, OnOk, OnErr, IsErrOf};
ghost use Rattle.desk_base.specs.Counts.{risen};
ghost use Rattle.desk_base.specs.Memory.{NextFails, after_call};
ghost use Rattle.desk_words.specs.Changes.{FitAll, changed_all};
ghost use Rattle.desk_words.specs.Tables.{AreTables, rows_of};
ghost use Rattle.keeper_core.specs.Keeping.{ChangeTold, CountsFailures, FitTold, IsLoaded};
ghost use Rattle.keeper_core.specs.Keeping.{LoadsHeld, NeverFails, StayTold};

use crate::changing::change_all;
use crate::keeper::{KeepFail, Keeper};
use crate::room::make_room;
use desk_base::{CallPlan, Duplicate, FaultCount, List, NoMemory};
use desk_words::{Change, Tables};
use std::marker::Model;

/// A keeper in memory. Its k-th call, counted from 1, fails exactly where `fails` holds k. A count of calls stands
/// at 2^64 - 1, and from then on no call fails.
#[derive(Debug, Drop)]
pub struct MemKeeper {
    tables: Tables,
    plan: CallPlan,
    faults: FaultCount,
}

impl Model for MemKeeper {
    ghost use Rattle.desk_words.specs.Tables.{AreTables, rows_of};
    ghost use Rattle.keeper_core.specs.Keeping.{Kept};

    ghost Value = { Kept };

    ghost view = { λ k. record { rows = rows_of k.tables; schedule = k.plan; faults = k.faults } };

    ghost invariant = { λ k. AreTables (rows_of k.tables) };
}

impl MemKeeper {
    /// A keeper with these tables, of which no call was made and none has failed.
    pub fn new(tables: Tables, fails: List<u64>) -> MemKeeper
        requires { AreTables (rows_of tables) }
        ensures { result ≡ record {
          rows = rows_of tables;
          schedule = record { calls = 0; fails = fails };
          faults = 0;
        } }
    {
        MemKeeper::after_calls(tables, fails, 0, 0)
    }

    /// The same after so many calls, of which so many failed.
    pub fn after_calls(tables: Tables, fails: List<u64>, calls: u64, faults: u64) -> MemKeeper
        requires { AreTables (rows_of tables) }
        ensures { result ≡ record {
          rows = rows_of tables;
          schedule = record { calls = calls; fails = fails };
          faults = faults;
        } }
    {
        MemKeeper {
            tables,
            plan: CallPlan::after(calls, fails),
            faults: FaultCount::at(faults),
        }
    }
}

impl Keeper for MemKeeper {
    ghost tables = { λ k. Some k.rows };

    ghost calls = { λ k. k.schedule.calls };

    ghost faults = { λ k. k.faults };

    ghost holds = { λ k rows. k.rows ≡ rows };

    ghost is_steady = { λ k. k.schedule.fails ≡ [] };

    fn load(&mut self) -> Result<Tables, KeepFail>
        ensures loaded { IfOk result (λ made. IsLoaded (Some self.old.rows) (Some self.new.rows) (rows_of made)) }
        ensures kept { IfOk result
            (λ made. LoadsHeld (λ rows. self.old.rows ≡ rows) (Some self.new.rows) (rows_of made)) }
        ensures whole { IfOk result (λ made. AreTables (rows_of made)) }
        ensures unchanged { OnErr result (StayTold (Some self.old.rows) (Some self.new.rows)) }
        ensures called { self.new.schedule.calls ≡ risen self.old.schedule.calls }
        ensures faults { CountsFailures self.old.faults self.new.faults result }
        ensures steady { self.old.schedule.fails ≡ [] → NeverFails result × (self.new.schedule.fails ≡ []) }

        // Exactly which calls fail, and what they count.
        ensures fails { IsErrOf result KeepFail.Failed ↔ NextFails self.old.schedule }
        ensures counted { self.new.schedule ≡ after_call self.old.schedule }
    {
        if self.plan.next_fails() {
            self.faults.rise();
            return Err(KeepFail::Failed);
        }
        Ok(copy_of(&self.tables)?)
    }

    fn commit(&mut self, changes: &List<Change>) -> Result<(), KeepFail>
        requires { FitTold (Some self.old.rows) changes.now }
        ensures committed { OnOk result (ChangeTold (Some self.old.rows) (Some self.new.rows) changes.now) }
        ensures unchanged { OnErr result (StayTold (Some self.old.rows) (Some self.new.rows)) }
        ensures called { self.new.schedule.calls ≡ risen self.old.schedule.calls }
        ensures faults { CountsFailures self.old.faults self.new.faults result }
        ensures steady { self.old.schedule.fails ≡ [] → NeverFails result × (self.new.schedule.fails ≡ []) }

        // Exactly which calls fail, and what they count.
        ensures fails { IsErrOf result KeepFail.Failed ↔ NextFails self.old.schedule }
        ensures counted { self.new.schedule ≡ after_call self.old.schedule }
    {
        if self.plan.next_fails() {
            self.faults.rise();
            return Err(KeepFail::Failed);
        }
        change_tables(&mut self.tables, changes)
    }
}

/// The tables with the same rows.
fn copy_of(tables: &Tables) -> Result<Tables, NoMemory>
    ensures { IfOk result (λ made. rows_of made ≡ rows_of tables.now) }
{
    tables.copy_rows(tables.clerks.allocator())
}

/// Makes all changes in the tables, or none where there is no memory.
fn change_tables(tables: &mut Tables, changes: &List<Change>) -> Result<(), KeepFail>
    requires fit { FitAll (rows_of tables.old) changes.now }
    requires whole { AreTables (rows_of tables.old) }
    ensures committed { OnOk result (rows_of tables.new ≡ changed_all (rows_of tables.old) changes.now) }
    ensures unchanged { OnErr result (rows_of tables.new ≡ rows_of tables.old) }
    ensures memory { OnErr result (result ≡ Err KeepFail.NoMemory) }
    ensures whole { AreTables (rows_of tables.new) }
{
    let copies = changes.copy()?;
    let fresh = make_room(changes.allocator(), tables, changes.as_slice())?;
    change_all(tables, fresh, copies);
    Ok(())
}
