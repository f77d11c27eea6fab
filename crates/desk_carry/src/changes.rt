//! Which cells of a view are shown otherwise in another.
ghost use Rattle.std.specs.Prelude.{◌≡◌, ◌≢◌, ◌≤◌, ◌↔◌, ℕ, Some, length, slice_get, IfOk, IsTrue, MatchOption};
ghost use Rattle.desk_carry.specs.Changes.{AreApart, AreChanged, IsChanged};

use desk_base::{List, MAX_ATTRIBUTES, NoMemory};
use desk_words::{Shown, View, ViewCell};
use std::alloc::Global;

/// The places, from 0, of the cells of one name that are shown otherwise in the view after than in the view before:
/// with another value, or with a value that came to be otherwise. The place before stands first, and the pairs come
/// in the order of the cells after. The one refusal is want of memory for the list.
pub fn changed(alloc: Global, before: &View, after: &View) -> Result<List<(u16, u16)>, NoMemory>
    requires few_before { length before.now.cells ≤ MAX_ATTRIBUTES }
    requires few_after { length after.now.cells ≤ MAX_ATTRIBUTES }
    requires apart { AreApart before.now.cells }
    ensures { IfOk result (AreChanged before.now after.now) }
{
    let mut pairs = List::new(alloc);
    'cells: for (new, cell) in after.cells.as_slice().iter().enumerate() {
        if let Some(old) = place_before(before.cells.as_slice(), cell) {
            pairs.push((old as u16, new as u16))?;
        }
    }
    Ok(pairs)
}

/// The place of the cell with the same name, where it is shown otherwise.
fn place_before(before: &[ViewCell], cell: &ViewCell) -> Option<usize>
    ensures { MatchOption result
        ((place : ℕ) (was : ViewCell) → slice_get before.now place ≡ Some was → was.name ≡ cell.now.name
        → was ≡ cell.now)
        (λ place. (was : ViewCell) × (slice_get before.now place ≡ Some was) × (was.name ≡ cell.now.name)
        × (was ≢ cell.now)) }
{
    'cells: for (place, was) in before.iter().enumerate() {
        if was.name.as_str() == cell.name.as_str() && !is_same(was, cell) {
            return Some(place);
        }
    }
    None
}

/// Whether two cells are equal.
fn is_same(one: &ViewCell, other: &ViewCell) -> bool
    ensures { IsTrue result ↔ (one.now ≡ other.now) }
{
    one.name.as_str() == other.name.as_str()
        && one.value.as_str() == other.value.as_str()
        && came_alike(&one.shown, &other.shown)
}

/// Whether two values came to be alike.
fn came_alike(one: &Shown, other: &Shown) -> bool
    ensures { IsTrue result ↔ (one.now ≡ other.now) }
{
    match (one, other) {
        (Shown::Uncovered, Shown::Uncovered) | (Shown::Confirmed, Shown::Confirmed) => true,
        (
            Shown::Fixed { rule, master, row },
            Shown::Fixed {
                rule: other_rule,
                master: other_master,
                row: other_row,
            },
        ) => {
            rule.as_str() == other_rule.as_str()
                && master.as_str() == other_master.as_str()
                && *row == *other_row
        }
        _ => false,
    }
}
