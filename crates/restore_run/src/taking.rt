//! Taking a whole text from a source.
ghost use Rattle.std.specs.Prelude.{◌≤◌, IfOk, OnErr, IsErrOf};
ghost use Rattle.desk_base.specs.Faults.{HasTaken, Rose};
ghost use Rattle.restore_run.specs.Dumped.{TakesWhole};

use desk_base::Source;
use once_run::{InputFault, input_of};
use std::alloc::Global;

/// Takes all bytes that are left.
pub fn text_of<S: Source>(alloc: Global, source: &mut S) -> Result<Vec<u8>, InputFault>
    ensures taken { IfOk result (λ text. TakesWhole (S.left source.old) (S.left source.new) text.items) }
    ensures part { OnErr result (HasTaken (S.left source.old) (S.left source.new)) }
    ensures cause { IsErrOf result InputFault.Failed → Rose (S.read_faults source.old) (S.read_faults source.new) }
    ensures later { S.read_faults source.old ≤ S.read_faults source.new }
    ensures steady { S.is_steady source.old → ¬ IsErrOf result InputFault.Failed }
{
    let text = input_of(alloc, usize::MAX, source)?;
    if text.len() == usize::MAX {
        return Err(InputFault::NoMemory);
    }
    Ok(text)
}
