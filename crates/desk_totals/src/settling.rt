//! Room for changes, and the changes with what is counted of them.
ghost use Rattle.std.specs.Prelude.{◌≡◌, ◌≤◌, length, IfOk, OnOk};
ghost use Rattle.desk_words.specs.Changes.{FitAll, changed_all};
ghost use Rattle.desk_words.specs.Tables.{AreTables, rows_of};
ghost use Rattle.keeper_core.specs.Making.{IsReady};
ghost use Rattle.desk_totals.specs.Totals.{AreTotals};

use crate::counting::count;
use crate::totals::Totals;
use desk_base::{List, NoMemory, Room};
use desk_words::{Change, Tables};
use keeper_core::{Fresh, change, make_room};
use std::alloc::Global;

/// Makes room for changes that fit, and for what is counted of the clerks that they bring. The rows and the numbers
/// stay.
pub(crate) fn make_all_room(
    alloc: Global,
    tables: &mut Tables,
    totals: &mut Room<Totals>,
    changes: &[Change],
) -> Result<Fresh, NoMemory>
    requires fit { FitAll (rows_of tables.old) changes.now }
    requires whole { AreTables (rows_of tables.old) }
    ensures rows { rows_of tables.new ≡ rows_of tables.old }
    ensures totals { totals.new.items ≡ totals.old.items }
    ensures ready { IfOk result (λ fresh. IsReady tables.new fresh changes.now) }
    ensures room { OnOk result (length changes.now ≤ totals.new.spare) }
{
    totals.reserve(changes.len())?;
    make_room(alloc, tables, changes)
}

/// Makes all changes that all is ready for, the first one first, and counts what they bring.
pub(crate) fn change_and_count(
    tables: &mut Tables,
    totals: &mut Room<Totals>,
    mut fresh: Fresh,
    changes: List<Change>,
)
    requires ready { IsReady tables.old fresh changes }
    requires counted { AreTotals (rows_of tables.old) totals.old.items }
    requires room { length changes ≤ totals.old.spare }
    ensures rows { rows_of tables.new ≡ changed_all (rows_of tables.old) changes }
    ensures counted { AreTotals (rows_of tables.new) totals.new.items }
{
    let mut left = changes.into_vec();
    left.reverse();
    'left: while let Some(next) = left.pop() {
        count(totals, tables, &next);
        change(tables, &mut fresh, next);
    }
}
