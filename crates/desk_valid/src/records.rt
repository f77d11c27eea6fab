//! Whether the rows of the records are what they have to be.
ghost use Rattle.std.specs.Prelude.{◌≡◌, ◌↔◌, ◌≤◌, [], false, length, replicate, take, IfOk, IsTrue};
ghost use Rattle.desk_words.specs.Tables.{AreTables, list_at, rows_of};
ghost use Rattle.desk_valid.specs.declared.table.Table.TheVariants.{Records};
ghost use Rattle.desk_valid.specs.FirstDamaged.{IsFirstBad, IsFirstDamaged};
ghost use Rattle.desk_valid.specs.Seen.{AreSeen};
ghost use Rattle.desk_valid.specs.Valid.{IsOwnRecord};

use crate::lists::own_list;
use desk_base::{List, NoMemory};
use desk_words::{RecordRow, Stage, Tables};
use std::alloc::Global;

/// The first damaged row of the records.
pub(crate) fn first_damaged(alloc: Global, tables: &Tables) -> Result<Option<u64>, NoMemory>
    requires { AreTables (rows_of tables.now) }
    ensures { IfOk result (IsFirstDamaged (rows_of tables.now) Records) }
{
    let mut before = 0;
    'clerks: for clerk in 0..tables.records.len() {
        if let Some(own) = first_of_clerk(alloc, tables, clerk)? {
            return Ok(Some(before + own));
        }
        before += own_list(&tables.records, clerk).len() as u64;
    }
    Ok(None)
}

/// The first damaged record of a clerk.
fn first_of_clerk(alloc: Global, tables: &Tables, clerk: usize) -> Result<Option<u64>, NoMemory>
    ensures { IfOk result (IsFirstBad (list_at (rows_of tables.now).records clerk)
        (IsOwnRecord (rows_of tables.now) clerk)) }
{
    let mut seen = no_flags(alloc, own_list(&tables.sessions, clerk).len())?;
    'rows: for (place, row) in own_list(&tables.records, clerk).iter().enumerate() {
        if !is_record_row(tables, clerk, place, row, &seen) {
            return Ok(Some(place as u64));
        }
        seen.set(row.session as usize - 1, true);
    }
    Ok(None)
}

/// So many flags, all off.
fn no_flags(alloc: Global, count: usize) -> Result<List<bool>, NoMemory>
    ensures { IfOk result (λ flags. flags ≡ replicate count false) }
{
    let mut flags = List::new(alloc);
    'flags: for _flag in 0..count {
        flags.push(false)?;
    }
    Ok(flags)
}

fn is_record_row(
    tables: &Tables,
    clerk: usize,
    place: usize,
    row: &RecordRow,
    seen: &List<bool>,
) -> bool
    requires { AreSeen seen.now (length (list_at (rows_of tables.now).sessions clerk))
        (take place (list_at (rows_of tables.now).records clerk)) }
    ensures { IsTrue result ↔ IsOwnRecord (rows_of tables.now) clerk place row.now }
{
    if row.session == 0 {
        return false;
    }
    let number = row.session as usize - 1;
    let Some(session) = own_list(&tables.sessions, clerk).get(number) else {
        return false;
    };
    session.stage == Stage::Committed
        && !seen.as_slice()[number]
        && row.texts.len() == session.typed.len()
}
