//! Room that is made before changes, so that no change wants memory.
ghost use Rattle.std.specs.Prelude.{◌≡◌, ◌≤◌, length, IfOk, OnOk};
ghost use Rattle.desk_words.specs.Changes.{FitAll};
ghost use Rattle.desk_words.specs.Tables.{AreTables, rows_of};
ghost use Rattle.keeper_core.specs.Making.{AreFresh, HasRoom, IsReady, clerk_count, is_named};

use crate::lists::{empty_lists, reserve_lists};
use desk_base::{NoMemory, Room};
use desk_words::{BatchRow, Change, RecordRow, SessionRow, Tables};
use std::alloc::Global;

/// Empty lists for clerks who are still to come.
#[derive(Debug, Drop)]
pub struct Fresh {
    pub sessions: Vec<Room<SessionRow>>,
    pub records: Vec<Room<RecordRow>>,
    pub batches: Vec<Room<BatchRow>>,
}

/// Makes room for changes that fit, and empty lists for the clerks that they bring. The rows stay; where there is
/// no memory, some room may have been made.
pub fn make_room(alloc: Global, tables: &mut Tables, changes: &[Change]) -> Result<Fresh, NoMemory>
    requires fit { FitAll (rows_of tables.old) changes.now }
    requires whole { AreTables (rows_of tables.old) }
    ensures rows { rows_of tables.new ≡ rows_of tables.old }
    ensures ready { IfOk result (λ fresh. IsReady tables.new fresh changes.now) }
{
    reserve(tables, changes)?;
    fresh_lists(alloc, clerk_count(changes), changes.len())
}

/// Makes places for so many rows as there are changes in each table, and in the lists of the clerks whom they name.
fn reserve(tables: &mut Tables, changes: &[Change]) -> Result<(), NoMemory>
    ensures rows { rows_of tables.new ≡ rows_of tables.old }
    ensures room { OnOk result (HasRoom tables.new (is_named changes.now) (length changes.now)) }
{
    let count = changes.len();
    tables.clerks.reserve(count)?;
    tables.schemas.reserve(count)?;
    tables.masters.reserve(count)?;
    tables.rulebooks.reserve(count)?;
    tables.editions.reserve(count)?;
    tables.regions.reserve(count)?;
    reserve_lists(&mut tables.sessions, changes)?;
    reserve_lists(&mut tables.records, changes)?;
    reserve_lists(&mut tables.batches, changes)
}

/// Empty lists of each kind for so many new clerks, with places for so many rows in each.
fn fresh_lists(alloc: Global, clerks: usize, count: usize) -> Result<Fresh, NoMemory>
    ensures { IfOk result (λ fresh. AreFresh fresh clerks count) }
{
    let sessions = empty_lists(alloc, clerks, count)?;
    let records = empty_lists(alloc, clerks, count)?;
    Ok(Fresh {
        sessions,
        records,
        batches: empty_lists(alloc, clerks, count)?,
    })
}

/// How many new clerks the changes may bring.
fn clerk_count(changes: &[Change]) -> usize
    ensures { result ≡ clerk_count changes.now }
{
    let mut count = 0;
    'changes: for change in changes {
        if let Change::Clerk(_, _) = change {
            count += 1;
        }
    }
    count
}
