//! Looks through rows of a master that are listed.
ghost use Rattle.fix_model.specs.Hit.{IsFirstOf};
ghost use Rattle.fix_model.specs.Sought.{HasColumns, Meets, TellsFirst, TellsHit, TellsOther};
ghost use Rattle.master_index.specs.Index.{AreCandidates};

use desk_base::Grid;
use fix_model::{Hit, Rule, Sought};

/// What there is to find among the listed rows.
pub(crate) fn hit_among(
    master: &Grid,
    rule: &Rule,
    sought: &Sought<'_>,
    rows: &[u32],
) -> Option<Hit>
    requires columns { HasColumns master.now rule.now sought.now }
    requires rows { AreCandidates master.now rule.now sought.now rows.now }
    ensures { TellsHit master.now rule.now sought.now result }
{
    let first = first_among(master, rule, sought, rows)?;
    let other = other_among(master, rule, sought, rows, first);
    Some(Hit { first, other })
}

/// The least of the listed rows that is usable and agrees with all that is sought.
pub(crate) fn first_among(
    master: &Grid,
    rule: &Rule,
    sought: &Sought<'_>,
    rows: &[u32],
) -> Option<u32>
    requires columns { HasColumns master.now rule.now sought.now }
    requires rows { AreCandidates master.now rule.now sought.now rows.now }
    ensures { TellsFirst master.now rule.now sought.now result }
{
    'rows: for row in rows {
        if sought.agrees(master, rule, *row) {
            return Some(*row);
        }
    }
    None
}

fn other_among(
    master: &Grid,
    rule: &Rule,
    sought: &Sought<'_>,
    rows: &[u32],
    first: u32,
) -> Option<u32>
    requires columns { HasColumns master.now rule.now sought.now }
    requires rows { AreCandidates master.now rule.now sought.now rows.now }
    requires first_row { IsFirstOf (Meets master.now rule.now sought.now) first }
    ensures { TellsOther master.now rule.now sought.now first result }
{
    'rows: for row in rows {
        if sought.gives_other(master, rule, first, *row) {
            return Some(*row);
        }
    }
    None
}
