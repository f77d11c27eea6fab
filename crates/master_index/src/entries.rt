//! The entries of a triple: for each key that its usable rows have, the least row, and the least that gives
//! another text.
ghost use Rattle.std.specs.Prelude.{◌≡◌, ◌<◌, ◌+◌, ◌↔◌, length, IfOk, OnOk, IsTrue};
ghost use Rattle.fix_model.specs.Comparison.{row_key};
ghost use Rattle.fix_model.specs.Rules.{from_text, master_of};
ghost use Rattle.fix_model.specs.Valid.{IsValid, IsValidRule};
ghost use Rattle.master_index.specs.Sorted.{AreEntries, AreEntriesOf, AreSortedRows, EndsWithKey, IsGrown};
ghost use Rattle.master_index.specs.Sorted.{StandsBefore};

use crate::sorting::{has_same_key, sorted_rows};
use desk_base::{List, NoMemory};
use fix_model::{Hit, Kit, Rule};
use std::alloc::Global;

/// The entries of a rule's triple, in the order of their keys.
pub(crate) fn entries_of(alloc: Global, kit: &Kit, rule: &Rule) -> Result<List<Hit>, NoMemory>
    requires valid { IsValid kit.now }
    requires rule_valid { IsValidRule kit.now rule.now }
    ensures { IfOk result (AreEntriesOf kit.now rule.now) }
{
    let rows = sorted_rows(alloc, kit, rule)?;
    entries_among(alloc, kit, rule, rows.as_slice())
}

/// The entries of the usable rows.
fn entries_among(alloc: Global, kit: &Kit, rule: &Rule, rows: &[u32]) -> Result<List<Hit>, NoMemory>
    requires valid { IsValid kit.now }
    requires rule_valid { IsValidRule kit.now rule.now }
    requires rows { AreSortedRows kit.now rule.now rows.now }
    ensures { IfOk result (AreEntriesOf kit.now rule.now) }
{
    let mut entries = List::new(alloc);
    'rows: for place in 0..rows.len() {
        add(&mut entries, kit, rule, rows, place)?;
    }
    Ok(entries)
}

/// Adds the row at a place, counted from 0, to the entries of the rows before it.
fn add(
    entries: &mut List<Hit>,
    kit: &Kit,
    rule: &Rule,
    rows: &[u32],
    place: usize,
) -> Result<(), NoMemory>
    requires valid { IsValid kit.now }
    requires rule_valid { IsValidRule kit.now rule.now }
    requires rows { AreSortedRows kit.now rule.now rows.now }
    requires place_within { place < length rows.now }
    requires before { AreEntries (row_key kit.now rule.now) (from_text kit.now rule.now)
        (StandsBefore rows.now place) place entries.old }
    ensures { OnOk result (AreEntries (row_key kit.now rule.now) (from_text kit.now rule.now)
        (StandsBefore rows.now (place + 1)) (place + 1) entries.new) }
{
    let row = rows[place];
    if !ends_with_key(entries.as_slice(), kit, rule, row) {
        return entries.push(Hit {
            first: row,
            other: None,
        });
    }
    let end = entries.len() - 1;
    let grown = with_row(kit, rule, entries.as_slice()[end], row);
    entries.set(end, grown);
    Ok(())
}

/// Whether there are entries, and the last of them has the key of a row.
fn ends_with_key(entries: &[Hit], kit: &Kit, rule: &Rule, row: u32) -> bool
    requires valid { IsValid kit.now }
    requires rule_valid { IsValidRule kit.now rule.now }
    ensures { IsTrue result ↔ EndsWithKey (row_key kit.now rule.now) entries.now row }
{
    !entries.is_empty() && has_same_key(kit, rule, entries[entries.len() - 1].first, row)
}

/// The entry with a later row of its key: that is the other one, if there is none and it gives another text.
fn with_row(kit: &Kit, rule: &Rule, entry: Hit, row: u32) -> Hit
    requires rule_valid { IsValidRule kit.now rule.now }
    requires first_within { entry.first < length (master_of kit.now rule.now).rows }
    requires row_within { row < length (master_of kit.now rule.now).rows }
    ensures { IsGrown (from_text kit.now rule.now) entry row result }
{
    if entry.other.is_none() && !gives_same(kit, rule, entry.first, row) {
        return Hit {
            first: entry.first,
            other: Some(row),
        };
    }
    entry
}

/// Whether two rows give the same text.
fn gives_same(kit: &Kit, rule: &Rule, row: u32, other: u32) -> bool
    requires rule_valid { IsValidRule kit.now rule.now }
    requires row_within { row < length (master_of kit.now rule.now).rows }
    requires other_within { other < length (master_of kit.now rule.now).rows }
    ensures { IsTrue result ↔ (from_text kit.now rule.now row ≡ from_text kit.now rule.now other) }
{
    let master = kit.master(rule);
    master.cell(row, rule.from) == master.cell(other, rule.from)
}
