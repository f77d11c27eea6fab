//! The contradictions of a rule, from the entries of its index.
ghost use Rattle.std.specs.Prelude.{◌<◌, length, IfOk};
ghost use Rattle.fix_model.specs.Rules.{rule_at};
ghost use Rattle.rule_contradictions.specs.Contradictions.{AreContradictions};
ghost use Rattle.rule_contradictions.specs.Gathered.{AreGathered};

use crate::contradiction::Contradiction;
use desk_base::{List, NoMemory};
use master_index::SortedBook;
use std::alloc::Global;

/// The contradictions of the rule at a place, counted from 0: for each key with rows that contradict each other the
/// least usable row that has it, and the least that gives another text. They stand in the order of the first rows, and
/// rows count from 0. The entries that the index keeps for the rule are gone through once, and what is found is sorted.
/// The one refusal is want of memory.
pub fn contradictions(
    alloc: Global,
    book: &SortedBook,
    rule: u16,
) -> Result<List<Contradiction>, NoMemory>
    requires { rule < length book.now.rules }
    ensures { IfOk result (AreContradictions book.now (rule_at book.now rule)) }
{
    let mut found = gathered(alloc, book, rule)?;
    found.sort_unstable_by(|one, other| one.row.cmp(&other.row));
    Ok(List::from_vec(found))
}

/// The same in the order of their keys.
fn gathered(alloc: Global, book: &SortedBook, rule: u16) -> Result<Vec<Contradiction>, NoMemory>
    requires { rule < length book.now.rules }
    ensures { IfOk result (λ found. AreGathered book.now (rule_at book.now rule) found.items) }
{
    let mut found = Vec::new(alloc);
    'entries: for entry in book.entries(rule) {
        if let Some(other_row) = entry.other {
            found.push(Contradiction {
                row: entry.first,
                other_row,
            })?;
        }
    }
    Ok(found)
}
