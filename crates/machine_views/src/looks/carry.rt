//! Carry, as a look: how a session is shown, and how it would be over a newer version of its edition.
ghost use Rattle.std.specs.Prelude.{◌≡◌, ◌≤◌, IfOk, Ok, length};
ghost use Rattle.std.specs.List.{list_any};
ghost use Rattle.std.specs.Str.{bytes_eq};
ghost use Rattle.desk_base.specs.declared.limits.TheConstants.{MAX_ATTRIBUTES};
ghost use Rattle.desk_carry.specs.Changes.{AreApart};
ghost use Rattle.desk_words.specs.Tables.{published_of, rows_of};
ghost use Rattle.machine_workplace.specs.Ready.{IsReady};
ghost use Rattle.machine_core.specs.Checked.{Gives};
ghost use Rattle.machine_core.specs.Look.Carry.{carried_between, carrying, words_apart};
ghost use Rattle.machine_core.specs.Outcomes.{Answers};
ghost use Rattle.machine_core.specs.Own.{IsOwn};

use crate::looks::view::view_at;
use crate::views::view_of;
use desk_base::{Duplicate, List, NoMemory, Text};
use desk_carry::changed;
use desk_words::{Carried, Tables, View, ViewCell};
use machine_core::{Own, Stop, carry_row};
use machine_workplace::Workplace;
use std::alloc::Global;

/// What a Carry of the session of this number, counted from 1, to this version of its edition would change. Nothing is
/// kept.
pub fn carrying(
    tables: &Tables,
    workplace: &mut Workplace,
    own: &Own,
    number: u32,
    version: u32,
) -> Result<Carried, Stop>
    requires ready { IsReady (rows_of tables.now) workplace.old }
    requires own { IsOwn (rows_of tables.now) own.now }
    ensures carried { Answers result (carrying (published_of (rows_of tables.now)) own.now number version) }
    ensures ready { IsReady (rows_of tables.now) workplace.new }
{
    let moved = carry_row(workplace.alloc, tables, own, number, version)?;
    let before = view_at(tables, workplace, own, number)?;
    let after = view_of(tables, workplace, number, &moved)?;
    Ok(carried_between(workplace.alloc, before, after)?)
}

/// What changes from one view to another.
fn carried_between(alloc: Global, before: View, after: View) -> Result<Carried, NoMemory>
    requires few_before { length before.cells ≤ MAX_ATTRIBUTES }
    requires few_after { length after.cells ≤ MAX_ATTRIBUTES }
    requires apart { AreApart before.cells }
    ensures { IfOk result (λ carried. Gives (carried_between before after) (Ok carried)) }
{
    let changed = changed(alloc, &before, &after)?;
    let added = words_apart(alloc, &after, &before)?;
    let dropped = words_apart(alloc, &before, &after)?;
    Ok(Carried {
        added,
        dropped,
        before,
        after,
        changed,
    })
}

/// The words of the attributes that one view shows and the other does not.
fn words_apart(alloc: Global, view: &View, other: &View) -> Result<List<Text>, NoMemory>
    ensures { IfOk result (λ words. words ≡ words_apart view.now other.now) }
{
    let mut words = List::new(alloc);
    'cells: for cell in view.cells.as_slice() {
        if !has_word(other.cells.as_slice(), cell.name.as_str()) {
            words.push(cell.name.copy()?)?;
        }
    }
    Ok(words)
}

/// Whether one of these cells has this word.
fn has_word(cells: &[ViewCell], word: &str) -> bool
    ensures { result ≡ list_any (λ cell. bytes_eq word.now cell.name) cells.now }
{
    cells.iter().any(|cell| word == cell.name.as_str())
}
