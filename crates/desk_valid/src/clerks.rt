//! Whether the rows of the clerks are what they have to be.
ghost use Rattle.std.specs.Prelude.{codes, ◌≡◌, ◌≢◌, ◌↔◌, ◌<◌, ◌≤◌, All, length, replicate, take, IsTrue};
ghost use Rattle.desk_base.specs.Words.{is_name};
ghost use Rattle.desk_words.specs.Tables.{rows_of};
ghost use Rattle.desk_valid.specs.declared.table.Table.TheVariants.{Clerks};
ghost use Rattle.desk_valid.specs.FirstDamaged.{IsFirstDamaged};
ghost use Rattle.desk_valid.specs.Rows.Clerk.{HasTarget, IsClerkRow, IsClerksAct, IsNamedApart, IsStewardsAct};

use crate::lists::own_list;
use desk_base::{MAX_CLERKS, MAX_REQUEST, Text, is_name};
use desk_words::{Act, ClerkRow, Tables};

/// The first damaged row of the clerks.
pub(crate) fn first_damaged(tables: &Tables) -> Option<u64>
    ensures { IsFirstDamaged (rows_of tables.now) Clerks result }
{
    'rows: for (place, row) in tables.clerks.as_slice().iter().enumerate() {
        if !is_clerk_row(tables, place, row) {
            return Some(place as u64);
        }
    }
    None
}

fn is_clerk_row(tables: &Tables, place: usize, row: &ClerkRow) -> bool
    requires { place ≤ length tables.now.clerks.items }
    ensures { IsTrue result ↔ IsClerkRow (rows_of tables.now) place row.now }
{
    place <= MAX_CLERKS
        && is_named_apart(tables, place, &row.name)
        && row.last <= MAX_REQUEST
        && (row.last == 0) == (row.act == Act::Nothing)
        && has_digest(row)
        && is_of_caller(row.act, place)
        && has_target(tables, place, row)
}

/// Whether the name is the steward's in the first row, and in another a name that no earlier row has.
fn is_named_apart(tables: &Tables, place: usize, name: &Text) -> bool
    requires { place ≤ length tables.now.clerks.items }
    ensures { IsTrue result ↔ IsNamedApart (rows_of tables.now) place name.now }
{
    is_named(place, name) && is_new(&tables.clerks.as_slice()[..place], name)
}

/// Whether the name is the steward's in the first row, and in another a name.
fn is_named(place: usize, name: &Text) -> bool
    ensures { IsTrue result
        ↔ (place ≡ 0 → name.now ≡ codes "steward") × (0 < place → IsTrue (is_name name.now)) }
{
    if place == 0 {
        name.as_str() == "steward"
    } else {
        is_name(name.as_str().as_bytes())
    }
}

/// Whether none of these rows has the name.
fn is_new(rows: &[ClerkRow], name: &Text) -> bool
    ensures { IsTrue result ↔ All (λ row. row.name ≢ name.now) rows.now }
{
    rows.iter().all(|row| row.name.as_str() != name.as_str())
}

/// Whether the digest is zeros where no request was accepted.
fn has_digest(row: &ClerkRow) -> bool
    ensures { IsTrue result ↔ (row.now.act ≡ Act.Nothing → row.now.digest.bytes ≡ replicate 32 0) }
{
    row.act != Act::Nothing || row.digest.bytes == [0; 32]
}

/// Whether the act is one of this caller's: of the steward's in the first row, and of a clerk's in another.
fn is_of_caller(act: Act, place: usize) -> bool
    ensures { IsTrue result ↔ (place ≡ 0 → IsStewardsAct act) × (0 < place → IsClerksAct act) }
{
    match act {
        Act::Nothing => true,
        Act::Clerk | Act::Schema | Act::Master | Act::Rulebook | Act::Edition | Act::Region => place
            == 0,
        Act::Opened | Act::Changed | Act::Committed | Act::Batched => place != 0,
    }
}

/// Whether the target is a place in the table that the act names.
fn has_target(tables: &Tables, caller: usize, row: &ClerkRow) -> bool
    ensures { IsTrue result ↔ HasTarget (rows_of tables.now) caller row.now.act row.now.target }
{
    let target = row.target as usize;
    match row.act {
        Act::Nothing => target == 0,
        Act::Clerk => target > 0 && target < tables.clerks.len(),
        Act::Schema => target < tables.schemas.len(),
        Act::Master => target < tables.masters.len(),
        Act::Rulebook => target < tables.rulebooks.len(),
        Act::Edition => target < tables.editions.len(),
        Act::Region => target < tables.regions.len(),
        Act::Opened | Act::Changed => target < own_list(&tables.sessions, caller).len(),
        Act::Committed => target < own_list(&tables.records, caller).len(),
        Act::Batched => target < own_list(&tables.batches, caller).len(),
    }
}
