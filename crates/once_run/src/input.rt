//! Taking the input of a command.
ghost use Rattle.std.specs.Prelude.{◌≡◌, ◌≤◌, length, IfOk, OnErr, IsErrOf};
ghost use Rattle.desk_base.specs.Faults.{Rose};
ghost use Rattle.once_run.specs.declared.input.InputFault.TheVariants as faults;
ghost use Rattle.once_run.specs.Input.{Takes, TakesPart};

use desk_base::{Failed, Source};
use std::alloc::{AllocError, Global};
use thiserror::Error;

/// How many bytes a read asks for.
const PIECE: usize = 65_536;

/// Why an input was not taken.
#[derive(Clone, Copy, Debug, PartialEq, Eq, Error)]
pub enum InputFault {
    /// A read failed.
    #[error("a read failed")]
    Failed,
    /// There was no memory.
    #[error("there was no memory")]
    NoMemory,
}

impl From<Failed> for InputFault {
    ghost from_gives = { λ _ fault. fault ≡ faults.Failed };

    fn from(_failed: Failed) -> InputFault {
        InputFault::Failed
    }
}

impl From<AllocError> for InputFault {
    ghost from_gives = { λ _ fault. fault ≡ faults.NoMemory };

    fn from(_want: AllocError) -> InputFault {
        InputFault::NoMemory
    }
}

/// Takes all bytes that are left, or as many of them as the limit.
pub fn input_of<S: Source>(
    alloc: Global,
    limit: usize,
    input: &mut S,
) -> Result<Vec<u8>, InputFault>
    ensures taken { IfOk result (λ bytes. Takes limit (S.left input.old) (S.left input.new) bytes.items) }
    ensures part { OnErr result (TakesPart limit (S.left input.old) (S.left input.new)) }
    ensures cause { IsErrOf result InputFault.Failed
        → Rose (S.read_faults input.old) (S.read_faults input.new) }
    ensures later { S.read_faults input.old ≤ S.read_faults input.new }
    ensures steady { S.is_steady input.old → ¬ IsErrOf result InputFault.Failed }
{
    let mut piece = vec![in alloc; 0u8; PIECE]?;
    take_pieces(alloc, limit, input, piece.as_mut_slice())
}

fn take_pieces<S: Source>(
    alloc: Global,
    limit: usize,
    input: &mut S,
    piece: &mut [u8],
) -> Result<Vec<u8>, InputFault>
    requires { length piece.old ≡ 65536 }
    ensures taken { IfOk result (λ bytes. Takes limit (S.left input.old) (S.left input.new) bytes.items) }
    ensures part { OnErr result (TakesPart limit (S.left input.old) (S.left input.new)) }
    ensures cause { IsErrOf result InputFault.Failed
        → Rose (S.read_faults input.old) (S.read_faults input.new) }
    ensures later { S.read_faults input.old ≤ S.read_faults input.new }
    ensures steady { S.is_steady input.old → ¬ IsErrOf result InputFault.Failed }
{
    let mut bytes = Vec::new(alloc);
    'pieces: while bytes.len() < limit {
        let room = PIECE.min(limit - bytes.len());
        let count = input.read(&mut piece[..room])?;
        if count == 0 {
            return Ok(bytes);
        }
        bytes.extend_from_slice(&piece[..count])?;
    }
    Ok(bytes)
}
