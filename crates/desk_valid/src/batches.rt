//! Whether the rows of the batches are what they have to be.
ghost use Rattle.std.specs.Prelude.{◌↔◌, IsTrue};
ghost use Rattle.desk_words.specs.Tables.{AreTables, list_at, published_of, rows_of};
ghost use Rattle.desk_valid.specs.declared.table.Table.TheVariants.{Batches};
ghost use Rattle.desk_valid.specs.FirstDamaged.{IsFirstBad, IsFirstDamaged};
ghost use Rattle.desk_valid.specs.Rows.Batch.{IsBatchRow};
ghost use Rattle.desk_valid.specs.Valid.{IsOwnBatch};

use crate::lists::own_list;
use desk_words::{BatchRow, Tables};

/// The first damaged row of the batches.
pub(crate) fn first_damaged(tables: &Tables) -> Option<u64>
    requires { AreTables (rows_of tables.now) }
    ensures { IsFirstDamaged (rows_of tables.now) Batches result }
{
    let mut before = 0;
    'clerks: for clerk in 0..tables.batches.len() {
        if let Some(own) = first_of_clerk(tables, clerk) {
            return Some(before + own);
        }
        before += own_list(&tables.batches, clerk).len() as u64;
    }
    None
}

/// The first damaged batch of a clerk.
fn first_of_clerk(tables: &Tables, clerk: usize) -> Option<u64>
    ensures { IsFirstBad (list_at (rows_of tables.now).batches clerk)
        (IsOwnBatch (rows_of tables.now) clerk) result }
{
    'rows: for (place, row) in own_list(&tables.batches, clerk).iter().enumerate() {
        if !is_batch_row(tables, clerk, row) {
            return Some(place as u64);
        }
    }
    None
}

fn is_batch_row(tables: &Tables, clerk: usize, row: &BatchRow) -> bool
    ensures { IsTrue result
        ↔ IsBatchRow (published_of (rows_of tables.now)) (list_at (rows_of tables.now).sessions clerk) row.now }
{
    let sessions = own_list(&tables.sessions, clerk);
    (row.edition as usize) < tables.editions.len()
        && row.first > 0
        && row.first as usize + row.count as usize <= sessions.len() + 1
}
