//! The attributes that are not covered, and the rules whose heads they are.
ghost use Rattle.std.specs.Prelude.{◌<◌, IfOk};
ghost use Rattle.fix_model.specs.Run.{IsFinal};
ghost use Rattle.fix_model.specs.States.{Fits, IsCovered};
ghost use Rattle.fix_blockers.specs.Blocked.{AreBlocked, AreBlockedRules};

use crate::blocked_attribute::{BlockedAttribute, BlockedRule};
use crate::blocking::{blocker_of, rule_at};
use desk_base::{List, NoMemory};
use fix_model::{Book, State};
use std::alloc::Global;

/// Each attribute that is not covered at a state where nothing fires, in their order, with each rule whose head it is,
/// in theirs, and what stands in its way. The book is asked for no row: where nothing fires, none agrees with a rule
/// whose head is uncovered and whose keys and conditions are covered and match. The one refusal is want of memory.
pub fn blocked<L, B: Book<L>>(
    alloc: Global,
    book: &B,
    state: &State,
) -> Result<List<BlockedAttribute>, NoMemory>
    requires fits { Fits (B.kit book.now) state.now }
    requires ended { IsFinal (B.kit book.now) state.now }
    ensures { IfOk result (AreBlocked (B.kit book.now) state.now) }
{
    let mut blocked = List::new(alloc);
    'attributes: for attribute in 0..book.width() {
        if !state.covers(attribute) {
            let rules = blocked_rules::<L, B>(alloc, book, state, attribute)?;
            blocked.push(BlockedAttribute { attribute, rules })?;
        }
    }
    Ok(blocked)
}

/// Each rule whose head the attribute is, with what stands in its way.
fn blocked_rules<L, B: Book<L>>(
    alloc: Global,
    book: &B,
    state: &State,
    attribute: u16,
) -> Result<List<BlockedRule>, NoMemory>
    requires fits { Fits (B.kit book.now) state.now }
    requires ended { IsFinal (B.kit book.now) state.now }
    requires uncovered { ¬ IsCovered state.now attribute }
    ensures { IfOk result (AreBlockedRules (B.kit book.now) state.now attribute) }
{
    let mut rules = List::new(alloc);
    'rules: for rule in 0..book.rules().len() as u16 {
        if rule_at::<L, B>(book, rule).head == attribute {
            let blocker = blocker_of::<L, B>(alloc, book, state, rule)?;
            rules.push(BlockedRule { rule, blocker })?;
        }
    }
    Ok(rules)
}
