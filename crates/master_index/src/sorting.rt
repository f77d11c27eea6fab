//! The usable rows of a master in the order of their keys.
ghost use Rattle.std.specs.Prelude.{◌≡◌, ◌<◌, ◌≤◌, ◌↔◌, ℕ, All, length, slice_index, IfOk, IsTrue};
ghost use Rattle.std.specs.List.{Contains};
ghost use Rattle.desk_base.specs.Grid.{cell_text};
ghost use Rattle.fix_model.specs.Application.{IsUsable};
ghost use Rattle.fix_model.specs.Comparison.{key_order, row_key};
ghost use Rattle.fix_model.specs.Rules.{master_of};
ghost use Rattle.fix_model.specs.Valid.{IsValid, IsValidRule};
ghost use Rattle.master_index.specs.Fronts.{AreRowFronts};
ghost use Rattle.master_index.specs.Sorted.{AreSortedRows, row_order};

use crate::front::row_front;
use desk_base::{Grid, NoMemory};
use fix_model::{Kit, Rule, is_usable, text_order};
use std::alloc::Global;
use std::cmp::Ordering;

/// The usable rows of a rule's master, by their keys, and by their numbers where the keys are alike.
pub(crate) fn sorted_rows(alloc: Global, kit: &Kit, rule: &Rule) -> Result<Vec<u32>, NoMemory>
    requires valid { IsValid kit.now }
    requires rule_valid { IsValidRule kit.now rule.now }
    ensures { IfOk result (λ rows. AreSortedRows kit.now rule.now rows.items) }
{
    let fronts = row_fronts(alloc, kit, rule)?;
    sorted_by_fronts(alloc, kit, rule, fronts.as_slice())
}

/// The same, with the fronts of all rows.
fn sorted_by_fronts(
    alloc: Global,
    kit: &Kit,
    rule: &Rule,
    fronts: &[u64],
) -> Result<Vec<u32>, NoMemory>
    requires valid { IsValid kit.now }
    requires rule_valid { IsValidRule kit.now rule.now }
    requires fronts { AreRowFronts (row_key kit.now rule.now) fronts.now }
    ensures { IfOk result (λ rows. AreSortedRows kit.now rule.now rows.items) }
{
    let mut rows = usable_rows(alloc, kit, rule)?;
    rows.sort_unstable_by(|one, other| row_order(kit, rule, fronts, *one, *other));
    Ok(rows)
}

/// The usable rows of a rule's master, ascending.
fn usable_rows(alloc: Global, kit: &Kit, rule: &Rule) -> Result<Vec<u32>, NoMemory>
    requires rule_valid { IsValidRule kit.now rule.now }
    ensures usable { IfOk result (λ rows. All (IsUsable kit.now rule.now) rows.items) }
    ensures whole { IfOk result (λ rows. (row : ℕ) → IsUsable kit.now rule.now row → Contains rows.items row) }
    ensures few { IfOk result (λ rows. length rows.items ≤ length (master_of kit.now rule.now).rows) }
{
    let mut rows = Vec::new(alloc);
    let master = kit.master(rule);
    'rows: for row in 0..master.rows() {
        if is_usable(master, rule, row) {
            rows.push(row)?;
        }
    }
    Ok(rows)
}

/// The fronts of the keys that the rows of a rule's master have.
fn row_fronts(alloc: Global, kit: &Kit, rule: &Rule) -> Result<Vec<u64>, NoMemory>
    requires valid { IsValid kit.now }
    requires rule_valid { IsValidRule kit.now rule.now }
    ensures { IfOk result (λ fronts. AreRowFronts (row_key kit.now rule.now) fronts.items) }
{
    let mut fronts = Vec::new(alloc);
    'rows: for row in 0..kit.master(rule).rows() {
        fronts.push(row_front(kit, rule, row))?;
    }
    Ok(fronts)
}

/// The order of two rows by their keys, and by their numbers where the keys are alike. A cell past the
/// last row is a blank.
fn row_order(kit: &Kit, rule: &Rule, fronts: &[u64], row: u32, other: u32) -> Ordering
    requires valid { IsValid kit.now }
    requires rule_valid { IsValidRule kit.now rule.now }
    requires fronts { AreRowFronts (row_key kit.now rule.now) fronts.now }
    ensures { result ≡ row_order (row_key kit.now rule.now) row other }
{
    let order = front_at(fronts, row).cmp(&front_at(fronts, other));
    if order.is_ne() {
        return order;
    }
    key_order(kit, rule, row, other).then(row.cmp(&other))
}

/// The front of a row's key, that of a blank past the last row.
fn front_at(fronts: &[u64], row: u32) -> u64
    ensures { result ≡ slice_index fronts.now row }
{
    match fronts.get(row as usize) {
        Some(front) => *front,
        None => 0,
    }
}

/// The order of two rows by their keys.
pub(crate) fn key_order(kit: &Kit, rule: &Rule, row: u32, other: u32) -> Ordering
    requires valid { IsValid kit.now }
    requires rule_valid { IsValidRule kit.now rule.now }
    ensures { result ≡ key_order (row_key kit.now rule.now row) (row_key kit.now rule.now other) }
{
    let master = kit.master(rule);
    'keys: for key in rule.keys.as_slice() {
        let cell = cell_or_blank(master, row, key.1);
        let order = text_order(cell, cell_or_blank(master, other, key.1), kit.folds(key.0));
        if order.is_ne() {
            return order;
        }
    }
    Ordering::Equal
}

/// The text in a row and a column, a blank past the last row.
fn cell_or_blank(grid: &Grid, row: u32, column: u16) -> &str
    requires { column < grid.now.columns }
    ensures { result.now ≡ cell_text grid.now row column }
{
    if row < grid.rows() {
        grid.cell(row, column)
    } else {
        ""
    }
}

/// Whether two rows have the same key.
pub(crate) fn has_same_key(kit: &Kit, rule: &Rule, row: u32, other: u32) -> bool
    requires valid { IsValid kit.now }
    requires rule_valid { IsValidRule kit.now rule.now }
    ensures { IsTrue result ↔ (row_key kit.now rule.now row ≡ row_key kit.now rule.now other) }
{
    key_order(kit, rule, row, other).is_eq()
}
