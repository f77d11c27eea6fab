//! The clerks' lists of one kind: a room for each clerk, with the rows that are that clerk's own.
ghost use Rattle.std.specs.Prelude.{◌≡◌, ◌==◌, ◌+◌, ◌-◌, ◌<◌, ◌≤◌, ◌||◌, [], ◌∷◌, ◌++◌, ℕ, Bool, false, length};
ghost use Rattle.std.specs.Prelude.{slice_get, IfOk, IfSome, MatchOption, OnOk, OnErr};
ghost use Rattle.desk_words.specs.Changes.{put, with_clerk, with_list};
ghost use Rattle.desk_words.specs.Tables.{list_at, lists_of};
ghost use Rattle.keeper_core.specs.Making.{AreEmptyLists, HasPlaces, HavePlaces, is_named, is_of};

use desk_base::{NoMemory, Room};
use desk_words::Change;
use std::alloc::Global;

/// Puts an item at a place, or after the others where the place is their number. It refuses nothing: its place is
/// made.
pub fn put<T: Drop>(room: &mut Room<T>, place: usize, item: T)
    requires place { place ≤ length room.old.items }
    requires room { 0 < room.old.spare }
    ensures items { room.new.items ≡ put room.old.items place item }
    ensures spare { room.old.spare - 1 ≤ room.new.spare }
{
    if place == room.len() {
        room.push_reserved(item);
    } else {
        room.set(place, item);
    }
}

/// Puts an item into the list of a clerk, at a place or after the others. It refuses nothing: its place is made.
pub fn put_own<T: Drop>(lists: &mut Room<Room<T>>, clerk: usize, place: usize, item: T)
    requires clerk { clerk < length lists.old.items }
    requires place { place ≤ length (list_at (lists_of lists.old) clerk) }
    requires room { IfSome (slice_get lists.old.items clerk) (λ room. 0 < room.spare) }
    ensures lists { lists_of lists.new
        ≡ with_list (lists_of lists.old) clerk (put (list_at (lists_of lists.old) clerk) place item) }
    ensures room { (named : ℕ → Bool) (count : ℕ) → HasPlaces lists.old named count
        → HasPlaces lists.new named (count - 1) }
{
    put(lists.slot(clerk), place, item);
}

/// Puts an item after the others of a clerk's list. It refuses nothing: its place is made.
pub fn push_own<T: Drop>(lists: &mut Room<Room<T>>, clerk: usize, item: T)
    requires clerk { clerk < length lists.old.items }
    requires room { IfSome (slice_get lists.old.items clerk) (λ room. 0 < room.spare) }
    ensures lists { lists_of lists.new
        ≡ with_list (lists_of lists.old) clerk (list_at (lists_of lists.old) clerk ++ item ∷ []) }
    ensures room { (named : ℕ → Bool) (count : ℕ) → HasPlaces lists.old named count
        → HasPlaces lists.new named (count - 1) }
{
    lists.slot(clerk).push_reserved(item);
}

/// Puts an empty list after the others where a new clerk comes. It refuses nothing: its place is made.
pub fn add_list<T: Drop>(
    lists: &mut Room<Room<T>>,
    fresh: &mut Vec<Room<T>>,
    place: usize,
    clerks: usize,
)
    requires room { 0 < lists.old.spare }
    requires fresh { AreEmptyLists fresh.old.items 1 0 }
    ensures lists { lists_of lists.new ≡ with_clerk (lists_of lists.old) place clerks }
    ensures room { (named : ℕ → Bool) (count : ℕ) → HasPlaces lists.old named count
        → HavePlaces count fresh.old.items → HasPlaces lists.new named (count - 1) }
    ensures fresh { (clerks count : ℕ) → AreEmptyLists fresh.old.items (clerks + 1) count
        → AreEmptyLists fresh.new.items clerks count }
{
    if place == clerks {
        let room = fresh.pop().unwrap();
        lists.push_reserved(room);
    }
}

/// Makes places in the list of one clerk, where it is there.
fn reserve_list<T>(lists: &mut Room<Room<T>>, clerk: usize, count: usize) -> Result<(), NoMemory>
    ensures lists { lists_of lists.new ≡ lists_of lists.old }
    ensures places { (named : ℕ → Bool) → HasPlaces lists.old named count
        → OnOk result (HasPlaces lists.new (λ one. named one || (clerk == one)) count) }
{
    if clerk < lists.len() {
        return lists.slot(clerk).reserve(count);
    }
    Ok(())
}

/// The clerk of whose own a change puts a row.
fn clerk_of(change: &Change) -> Option<u32>
    ensures { MatchOption result ((one : ℕ) → is_of one change.now ≡ false)
        (λ clerk. (one : ℕ) → is_of one change.now ≡ (clerk == one)) }
{
    match change {
        Change::Session(clerk, _, _) | Change::Record(clerk, _) | Change::Batch(clerk, _) => {
            Some(*clerk)
        }
        _ => None,
    }
}

/// Makes places for as many clerks as there are changes, and for so many rows in the list of each clerk whom a
/// change names.
pub fn reserve_lists<T>(lists: &mut Room<Room<T>>, changes: &[Change]) -> Result<(), NoMemory>
    ensures lists { lists_of lists.new ≡ lists_of lists.old }
    ensures places { OnOk result (HasPlaces lists.new (is_named changes.now) (length changes.now)) }
{
    let count = changes.len();
    lists.reserve(count)?;
    'changes: for change in changes {
        if let Some(clerk) = clerk_of(change) {
            reserve_list(lists, clerk as usize, count)?;
        }
    }
    Ok(())
}

/// Empty lists for so many new clerks, with places for so many rows in each.
pub fn empty_lists<T: Drop>(
    alloc: Global,
    clerks: usize,
    count: usize,
) -> Result<Vec<Room<T>>, NoMemory>
    ensures { IfOk result (λ fresh. AreEmptyLists fresh.items clerks count) }
{
    let mut fresh = Vec::new(alloc);
    'clerks: for _clerk in 0..clerks {
        let mut room = Room::new(alloc);
        room.reserve(count)?;
        fresh.push(room)?;
    }
    Ok(fresh)
}
