//! Which rules a step wakes: those that wait for its head.
ghost use Rattle.std.specs.Prelude.{◌+◌, ◌<◌, ◌≤◌, length};
ghost use Rattle.fix_model.specs.Rules.{rule_at};
ghost use Rattle.fix_model.specs.Waits.{NoneWaitsBefore};

use fix_model::Book;

/// The rule from which a walk goes on after a step of a rule, where no rule before that one fired: the next one, or an
/// earlier one that waits for the head of the step.
pub fn woken<L, B: Book<L>>(book: &B, rule: u16) -> u16
    requires { rule < length (B.kit book.now).rules }
    ensures up_to { result ≤ rule + 1 }
    ensures apart { NoneWaitsBefore (B.kit book.now) (rule_at (B.kit book.now) rule).head result }
{
    let head = book.rules()[usize::from(rule)].head;
    book.first_waiting(head).min(rule + 1)
}
