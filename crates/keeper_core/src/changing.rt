//! Changes of tables that stand in memory. They refuse nothing, since room was made for them.
ghost use Rattle.std.specs.Prelude.{◌≡◌, ◌+◌, ◌-◌, [], ◌∷◌, ℕ, Bool};
ghost use Rattle.desk_words.specs.Changes.{changed, changed_all, with_caller};
ghost use Rattle.desk_words.specs.Tables.{AreTables, rows_of};
ghost use Rattle.keeper_core.specs.Making.{AreFresh, HasRoom, IsReady, clerk_count};

use crate::lists::{add_list, push_own, put, put_own};
use crate::room::Fresh;
use desk_base::List;
use desk_words::{Change, ClerkRow, Tables};

/// Makes all changes that all is ready for, the first one first.
pub fn change_all(tables: &mut Tables, mut fresh: Fresh, changes: List<Change>)
    requires { IsReady tables.old fresh changes }
    ensures rows { rows_of tables.new ≡ changed_all (rows_of tables.old) changes }
    ensures whole { AreTables (rows_of tables.new) }
{
    let mut left = changes.into_vec();
    left.reverse();
    'left: while let Some(next) = left.pop() {
        change(tables, &mut fresh, next);
    }
}

/// Makes a change that all is ready for. What was ready for the changes after it is ready for them still.
pub fn change(tables: &mut Tables, fresh: &mut Fresh, change: Change)
    requires { IsReady tables.old fresh.old (change ∷ []) }
    ensures rows { rows_of tables.new ≡ changed (rows_of tables.old) change }
    ensures room { (named : ℕ → Bool) (clerks count : ℕ) → HasRoom tables.old named count
        → AreFresh fresh.old clerks count → HasRoom tables.new named (count - 1) }
    ensures fresh { (clerks count : ℕ) → AreFresh fresh.old (clerk_count (change ∷ []) + clerks) count
        → AreFresh fresh.new clerks count }
{
    match change {
        Change::Clerk(place, row) => put_caller(tables, fresh, place as usize, row),
        Change::Schema(row) => tables.schemas.push_reserved(row),
        Change::Master(row) => tables.masters.push_reserved(row),
        Change::Rulebook(row) => tables.rulebooks.push_reserved(row),
        Change::Edition(row) => tables.editions.push_reserved(row),
        Change::Region(row) => tables.regions.push_reserved(row),
        Change::Session(clerk, place, row) => {
            put_own(&mut tables.sessions, clerk as usize, place as usize, row);
        }
        Change::Record(clerk, row) => push_own(&mut tables.records, clerk as usize, row),
        Change::Batch(clerk, row) => push_own(&mut tables.batches, clerk as usize, row),
    }
}

/// Puts a caller at a place, with empty lists where the caller is new.
fn put_caller(tables: &mut Tables, fresh: &mut Fresh, place: usize, row: ClerkRow)
    requires { IsReady tables.old fresh.old (Change.Clerk place row ∷ []) }
    ensures rows { rows_of tables.new ≡ with_caller (rows_of tables.old) place row }
    ensures room { (named : ℕ → Bool) (clerks count : ℕ) → HasRoom tables.old named count
        → AreFresh fresh.old clerks count → HasRoom tables.new named (count - 1) }
    ensures fresh { (clerks count : ℕ) → AreFresh fresh.old (clerks + 1) count → AreFresh fresh.new clerks count }
{
    let clerks = tables.clerks.len();
    add_list(&mut tables.sessions, &mut fresh.sessions, place, clerks);
    add_list(&mut tables.records, &mut fresh.records, place, clerks);
    add_list(&mut tables.batches, &mut fresh.batches, place, clerks);
    put(&mut tables.clerks, place, row);
}
