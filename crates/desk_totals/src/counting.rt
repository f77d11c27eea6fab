//! What is counted of the clerks, kept right while tables change.
ghost use Rattle.std.specs.Prelude.{◌≡◌, ◌-◌, ◌<◌, ◌≤◌, IfOk};
ghost use Rattle.desk_words.specs.Changes.{Fits, changed};
ghost use Rattle.desk_words.specs.Tables.{AreTables, rows_of};
ghost use Rattle.desk_totals.specs.Totals.{AreTotals};

use crate::texts::bytes_in;
use crate::totals::{Totals, active_with, bytes_with};
use desk_base::{NoMemory, Room};
use desk_valid::own_list;
use desk_words::{Change, RecordRow, SessionRow, Tables};
use std::alloc::Global;

/// What is counted of each clerk.
pub(crate) fn all_totals(alloc: Global, tables: &Tables) -> Result<Room<Totals>, NoMemory>
    requires { AreTables (rows_of tables.now) }
    ensures { IfOk result (λ totals. AreTotals (rows_of tables.now) totals.items) }
{
    let mut totals = Room::new(alloc);
    'clerks: for clerk in 0..tables.clerks.len() {
        let sessions = own_list(&tables.sessions, clerk);
        let records = own_list(&tables.records, clerk);
        totals.push(Totals::of(sessions, records))?;
    }
    Ok(totals)
}

/// Counts what a change brings that is about to be made in these tables.
pub(crate) fn count(totals: &mut Room<Totals>, tables: &Tables, change: &Change)
    requires fits { Fits (rows_of tables.now) change.now }
    requires whole { AreTables (rows_of tables.now) }
    requires counted { AreTotals (rows_of tables.now) totals.old.items }
    requires room { 0 < totals.old.spare }
    ensures counted { AreTotals (changed (rows_of tables.now) change.now) totals.new.items }
    ensures room { totals.old.spare - 1 ≤ totals.new.spare }
{
    match change {
        Change::Clerk(place, _) => {
            if *place as usize == tables.clerks.len() {
                totals.push_reserved(Totals {
                    active: 0,
                    bytes: 0,
                });
            }
        }
        Change::Session(clerk, place, row) => {
            count_session(totals, tables, *clerk as usize, *place as usize, row);
        }
        Change::Record(clerk, row) => count_record(totals, tables, *clerk as usize, row),
        Change::Schema(_)
        | Change::Master(_)
        | Change::Rulebook(_)
        | Change::Edition(_)
        | Change::Region(_)
        | Change::Batch(_, _) => {}
    }
}

/// Counts a session that is about to be put at a place.
fn count_session(
    totals: &mut Room<Totals>,
    tables: &Tables,
    clerk: usize,
    place: usize,
    row: &SessionRow,
)
    requires fits { Fits (rows_of tables.now) (Change.Session clerk place row.now) }
    requires whole { AreTables (rows_of tables.now) }
    requires counted { AreTotals (rows_of tables.now) totals.old.items }
    ensures counted { AreTotals (changed (rows_of tables.now) (Change.Session clerk place row.now)) totals.new.items }
    ensures room { totals.new.spare ≡ totals.old.spare }
{
    let sessions = own_list(&tables.sessions, clerk);
    let before = totals.as_slice()[clerk];
    let active = active_with(before.active, sessions, place, row);
    let bytes = bytes_with(before.bytes, sessions, place, row);
    totals.set(clerk, Totals { active, bytes });
}

/// Counts a record that is about to be put after the others.
fn count_record(totals: &mut Room<Totals>, tables: &Tables, clerk: usize, row: &RecordRow)
    requires fits { Fits (rows_of tables.now) (Change.Record clerk row.now) }
    requires whole { AreTables (rows_of tables.now) }
    requires counted { AreTotals (rows_of tables.now) totals.old.items }
    ensures counted { AreTotals (changed (rows_of tables.now) (Change.Record clerk row.now)) totals.new.items }
    ensures room { totals.new.spare ≡ totals.old.spare }
{
    let mut after = totals.as_slice()[clerk];
    after.bytes += bytes_in(row.texts.as_slice());
    totals.set(clerk, after);
}
