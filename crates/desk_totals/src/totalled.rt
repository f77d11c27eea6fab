//! Valid tables, with the numbers that limits speak of. A clause sees the rows of the tables.
ghost use Rattle.std.specs.Prelude.{◌≡◌, ◌<◌, ◌^◌, [], length, sum_by, IfOk, OnOk, OnErr};
ghost use Rattle.desk_words.specs.Changes.{FitAll, changed_all};
ghost use Rattle.desk_words.specs.Tables.{list_at, rows_of};
ghost use Rattle.desk_valid.specs.Tallies.{active_count, master_cells, text_bytes};
ghost use Rattle.desk_valid.specs.Valid.{AreValid};
ghost use Rattle.keeper_core.specs.Keeping.{CommitsOnce, CountsFailures, IfTold, NeverFails, TellsNoMore};

use crate::cells::{cells_with, master_cells};
use crate::counting::all_totals;
use crate::settling::{change_and_count, make_all_room};
use crate::totals::Totals;
use desk_base::{List, NoMemory, Room};
use desk_words::{Change, ClerkRow, Tables};
use keeper_core::{KeepFail, Keeper};
use std::alloc::Global;
use std::marker::Model;

/// Valid tables, with the numbers that limits speak of.
#[derive(Debug, Drop)]
pub struct Totalled {
    tables: Tables,
    totals: Room<Totals>,
    cells: u64,
}

impl Model for Totalled {
    ghost use Rattle.desk_words.specs.Tables.{Rows, rows_of};
    ghost use Rattle.desk_totals.specs.Totals.{AreTotalled};

    ghost Value = { Rows };

    ghost view = { λ t. rows_of t.tables };

    ghost invariant = { λ t. AreTotalled (rows_of t.tables) t.totals.items t.cells };
}

impl Totalled {
    /// These tables, of which all is counted once.
    pub fn new(alloc: Global, tables: Tables) -> Result<Totalled, NoMemory>
        requires { AreValid (rows_of tables) }
        ensures { IfOk result (λ made. made ≡ rows_of tables) }
    {
        let totals = all_totals(alloc, &tables)?;
        let cells = master_cells(alloc, tables.masters.as_slice())?;
        Ok(Totalled {
            tables,
            totals,
            cells,
        })
    }

    /// The tables, which are valid.
    pub fn tables(&self) -> &Tables
        ensures tables { rows_of result.now ≡ self.now }
        ensures valid { AreValid self.now }
    {
        &self.tables
    }

    /// How many sessions of the clerk at a place, counted from 0, are active.
    pub fn active(&self, clerk: usize) -> u64
        requires { clerk < length self.now.clerks }
        ensures { result ≡ active_count (list_at self.now.sessions clerk) }
    {
        self.totals.as_slice()[clerk].active
    }

    /// How many bytes the texts of the clerk at a place, counted from 0, have: typed ones and those of records.
    pub fn text_bytes(&self, clerk: usize) -> u64
        requires { clerk < length self.now.clerks }
        ensures { result ≡ text_bytes (list_at self.now.sessions clerk) (list_at self.now.records clerk) }
    {
        self.totals.as_slice()[clerk].bytes as u64
    }

    /// How many cells all masters have, fewer than 2^63.
    pub fn master_cells(&self) -> u64
        ensures cells { result ≡ master_cells self.now.masters }
        ensures few { result < 2 ^ 63 }
    {
        self.cells
    }

    /// The numbers of all callers' last accepted requests, added up.
    pub fn turn(&self) -> u64
        ensures { result ≡ sum_by (λ clerk. clerk.last) self.now.clerks }
    {
        sum_of_last(self.tables.clerks.as_slice())
    }

    /// Makes the changes in the keeper and in the tables, or in neither. The keeper is called once; where there was no
    /// memory it may not have been called. Without changes the keeper stays as it is, and nothing refuses.
    pub fn settle<K: Keeper>(
        &mut self,
        alloc: Global,
        keeper: &mut K,
        changes: List<Change>,
    ) -> Result<(), KeepFail>
        requires told { IfTold (K.tables keeper.old) self.old }
        requires fit { FitAll self.old changes }
        requires valid { AreValid (changed_all self.old changes) }
        ensures settled { OnOk result (self.new ≡ changed_all self.old changes) }
        ensures unchanged { OnErr result (self.new ≡ self.old) }
        ensures told { IfTold (K.tables keeper.new) self.new }
        ensures no_more { TellsNoMore (K.tables keeper.old) (K.tables keeper.new) }
        ensures idle { changes ≡ [] → keeper.new ≡ keeper.old }
        ensures idle_too { changes ≡ [] → OnErr result ⊥ }
        ensures called { CommitsOnce changes (K.calls keeper.old) (K.calls keeper.new) result }
        ensures faults { CountsFailures (K.faults keeper.old) (K.faults keeper.new) result }
        ensures steady { K.is_steady keeper.old → NeverFails result × K.is_steady keeper.new }
    {
        if changes.is_empty() {
            return Ok(());
        }
        // All that may want memory comes before the commit, so that nothing after it can refuse.
        let cells = cells_with(alloc, self.cells, changes.as_slice())?;
        let fresh = make_all_room(
            alloc,
            &mut self.tables,
            &mut self.totals,
            changes.as_slice(),
        )?;
        keeper.commit(&changes)?;
        change_and_count(&mut self.tables, &mut self.totals, fresh, changes);
        self.cells = cells;
        Ok(())
    }
}

/// The numbers of these callers' last accepted requests, added up.
fn sum_of_last(clerks: &[ClerkRow]) -> u64
    requires { sum_by (λ clerk. clerk.last) clerks.now < 2 ^ 64 }
    ensures { result ≡ sum_by (λ clerk. clerk.last) clerks.now }
{
    clerks.iter().map(|clerk| clerk.last).sum()
}
