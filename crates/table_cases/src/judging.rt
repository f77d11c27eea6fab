//! What is found in the tables of a case.
ghost use Rattle.std.specs.Prelude.{◌<◌, ◌↔◌, All, length, IsTrue};
ghost use Rattle.desk_words.specs.Tables.{AreListsOf, AreTables, lists_of, rows_of};

use crate::rows::tables;
use desk_base::Room;
use desk_cases::{Answer, Case};
use desk_valid::{Bad, Damage, valid};
use desk_words::Tables;
use std::test::Fail;

/// `valid`, or the table and the row of the first damage.
pub fn told(case: &Case, answer: &mut Answer) -> Result<(), Fail> {
    let tables = tables(answer.alloc(), case)?;
    let told = told_of(&tables, answer);
    drop(tables);
    told
}

/// `valid`, or the first damage of these tables.
fn told_of(tables: &Tables, answer: &mut Answer) -> Result<(), Fail> {
    if !are_tables(tables) {
        return Err(Fail::new("the rows of a case are no tables"));
    }
    match valid(answer.alloc(), tables) {
        Ok(()) => answer.text("wanted", "valid"),
        Err(Bad::Damaged(damage)) => add_damage(damage, answer),
        Err(Bad::NoMemory) => Err(Fail::new("there was no memory")),
    }
}

fn add_damage(damage: Damage, answer: &mut Answer) -> Result<(), Fail> {
    let text = format!(in answer.alloc(); "table {} row {}", damage.table, damage.row)?;
    answer.text("wanted", text.as_str())
}

/// The most rows of a list in a case.
const MOST: usize = 1_000_000;

/// Whether these are tables, none of them long.
pub fn are_tables(tables: &Tables) -> bool
    ensures { IsTrue result → AreTables (rows_of tables.now) }
{
    let clerks = tables.clerks.len();
    clerks > 0
        && clerks < MOST
        && tables.schemas.len() < MOST
        && tables.masters.len() < MOST
        && tables.rulebooks.len() < MOST
        && tables.editions.len() < MOST
        && tables.regions.len() < MOST
        && are_lists(&tables.sessions, clerks)
        && are_lists(&tables.records, clerks)
        && are_lists(&tables.batches, clerks)
}

/// Whether there is a list for each clerk, none of them long.
fn are_lists<T>(lists: &Room<Room<T>>, clerks: usize) -> bool
    ensures { IsTrue result → AreListsOf clerks (lists_of lists.now) }
{
    lists.len() == clerks && are_short(lists.as_slice())
}

fn are_short<T>(lists: &[Room<T>]) -> bool
    ensures { IsTrue result ↔ All (λ list. length list.items < 1000000) lists.now }
{
    lists.iter().all(|list| list.len() < MOST)
}
