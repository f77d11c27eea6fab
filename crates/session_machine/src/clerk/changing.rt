//! The changes of a clerk's deed.
ghost use Rattle.std.specs.Prelude.{◌≡◌, ◌++◌, map, IfOk, OnOk};
ghost use Rattle.std.specs.Option.{option_to_list};
ghost use Rattle.desk_words.specs.declared.change.Change.{Change as ChangeOf};
ghost use Rattle.machine_core.specs.Own.{changes_of};

use desk_base::{List, NoMemory};
use desk_words::{BatchRow, Change, ClerkRow, RecordRow, SessionRow, Ticket};
use machine_core::{Deed, ticketed};
use std::alloc::Global;

/// The changes of a deed of the clerk at a place: sessions, record, batch, and the clerk's own row last.
pub fn changes_of(
    alloc: Global,
    place: u32,
    row: &ClerkRow,
    ticket: &Ticket,
    deed: Deed,
) -> Result<List<Change>, NoMemory>
    ensures { IfOk result (λ changes. changes ≡ changes_of place row.now ticket.now deed) }
{
    let Deed {
        sessions,
        record_row,
        batch,
        act,
        target,
    } = deed;
    let caller = ticketed(row, ticket, act, target)?;
    let mut changes = List::new(alloc);
    put_sessions(&mut changes, place, sessions)?;
    put_record(&mut changes, place, record_row)?;
    put_batch(&mut changes, place, batch)?;
    changes.push(Change::Clerk(place, caller))?;
    Ok(changes)
}

fn put_sessions(
    changes: &mut List<Change>,
    clerk: u32,
    sessions: List<(u32, SessionRow)>,
) -> Result<(), NoMemory>
    ensures { OnOk result (changes.new
        ≡ changes.old ++ map (λ put. Change.Session clerk put.0 put.1) sessions) }
{
    'sessions: for (place, session) in sessions.into_vec() {
        changes.push(Change::Session(clerk, place, session))?;
    }
    Ok(())
}

fn put_record(
    changes: &mut List<Change>,
    clerk: u32,
    record_row: Option<RecordRow>,
) -> Result<(), NoMemory>
    ensures { OnOk result (changes.new
        ≡ changes.old ++ map (λ one. Change.Record clerk one) (option_to_list record_row)) }
{
    match record_row {
        Some(row) => changes.push(Change::Record(clerk, row)),
        None => Ok(()),
    }
}

fn put_batch(
    changes: &mut List<Change>,
    clerk: u32,
    batch: Option<BatchRow>,
) -> Result<(), NoMemory>
    ensures { OnOk result (changes.new
        ≡ changes.old ++ map (λ one. Change.Batch clerk one) (option_to_list batch)) }
{
    match batch {
        Some(row) => changes.push(Change::Batch(clerk, row)),
        None => Ok(()),
    }
}
