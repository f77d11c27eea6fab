//! The steps of a run without which it would not have fixed an attribute.
ghost use Rattle.std.specs.Prelude.{◌↔◌, All, IfOk, IsTrue};
ghost use Rattle.fix_model.specs.Rules.{IsStepOf};
ghost use Rattle.fix_model.specs.Run.{end_of, IsRun};
ghost use Rattle.fix_model.specs.States.{Fits};
ghost use Rattle.fix_explain.specs.Marks.{IsWanted};
ghost use Rattle.fix_explain.specs.Reasons.{IsFixed, IsReason};

use crate::reading::{is_read_by, rule_of};
use desk_base::{List, NoMemory};
use fix_model::{Book, State, Step};
use std::alloc::Global;

/// The reason why a run fixes an attribute, counted from 0: the shortest sub-list of the run, in its order, that is
/// itself a run from the state and fixes the attribute. The one refusal is want of memory for the list.
pub fn reason<L, B: Book<L>>(
    alloc: Global,
    book: &B,
    state: &State,
    run: &[Step],
    attribute: u16,
) -> Result<List<Step>, NoMemory>
    requires fits { Fits (B.kit book.now) state.now }
    requires run { IsRun (B.kit book.now) state.now run.now }
    requires fixed { IsFixed (end_of (B.kit book.now) state.now run.now) attribute }
    ensures { IfOk result (IsReason (B.kit book.now) state.now run.now attribute) }
{
    let mut marked = List::new(alloc);
    'places: for place in (0..run.len()).rev() {
        let step = run[place];
        let head = rule_of::<L, B>(book, step).head;
        if is_wanted::<L, B>(book, marked.as_slice(), attribute, head) {
            marked.push(step)?;
        }
    }
    let mut steps = marked.into_vec();
    steps.reverse();
    Ok(List::from_vec(steps))
}

/// Whether the attribute is the one that is to be fixed, or one that a marked step reads.
fn is_wanted<L, B: Book<L>>(book: &B, marked: &[Step], target: u16, attribute: u16) -> bool
    requires { All (IsStepOf (B.kit book.now)) marked.now }
    ensures { IsTrue result ↔ IsWanted (B.kit book.now) target marked.now attribute }
{
    attribute == target || is_read_by::<L, B>(book, marked, attribute)
}
