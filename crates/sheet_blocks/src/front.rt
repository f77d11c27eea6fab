//! The front of a sheet, where a byte order mark may stand.
ghost use Rattle.std.specs.Prelude.{◌≡◌, ◌≤◌, IfOk, IsErrOf};
ghost use Rattle.csv.specs.Reading.{strip_bom};
ghost use Rattle.desk_base.specs.Faults.{Rose, HasTaken};
ghost use Rattle.sheet_blocks.specs.Front.{IsFront, IsPartOfMark, is_marked, is_partial_mark};

use crate::fault::BlocksFault;
use desk_base::Source;
use std::alloc::Global;

/// The first bytes of a sheet, and whether these are all.
#[derive(Debug, Drop)]
pub(crate) struct Front {
    pub(crate) bytes: Vec<u8>,
    pub(crate) whole: bool,
}

/// Takes the first bytes of a sheet, until what follows is no part of a byte order mark.
pub(crate) fn front_of<S: Source>(alloc: Global, source: &mut S) -> Result<Front, BlocksFault>
    ensures front { IfOk result (λ front.
        IsFront (S.left source.old) (S.left source.new) front.bytes.items front.whole) }
    ensures part { IsErrOf result BlocksFault.Failed → IsPartOfMark (S.left source.old) (S.left source.new) }
    ensures lost { IsErrOf result BlocksFault.NoMemory → HasTaken (S.left source.old) (S.left source.new) }
    ensures cause { IsErrOf result BlocksFault.Failed
        → Rose (S.read_faults source.old) (S.read_faults source.new) }
    ensures later { S.read_faults source.old ≤ S.read_faults source.new }
    ensures steady { S.is_steady source.old → (¬ IsErrOf result BlocksFault.Failed) × S.is_steady source.new }
{
    let mut bytes = Vec::new(alloc);
    let mut piece = [0u8; 3];
    'pieces: while is_partial_mark(bytes.as_slice()) {
        let room = 3 - bytes.len();
        let count = source.read(&mut piece[..room])?;
        if count == 0 {
            return Ok(Front { bytes, whole: true });
        }
        bytes.extend_from_slice(&piece[..count])?;
    }
    Ok(Front {
        bytes,
        whole: false,
    })
}

/// Whether more bytes could make these a byte order mark.
fn is_partial_mark(bytes: &[u8]) -> bool
    ensures { result ≡ is_partial_mark bytes.now }
{
    match bytes {
        [] => true,
        [one] => *one == 0xEF,
        [one, two] => *one == 0xEF && *two == 0xBB,
        [_, _, _, ..] => false,
    }
}

/// Whether these begin with a byte order mark, U+FEFF in UTF-8.
fn is_marked(bytes: &[u8]) -> bool
    ensures { result ≡ is_marked bytes.now }
{
    match bytes {
        [] => false,
        [_] => false,
        [_, _] => false,
        [one, two, three, ..] => *one == 0xEF && *two == 0xBB && *three == 0xBF,
    }
}

/// The bytes after a byte order mark.
pub(crate) fn after_mark(bytes: &[u8]) -> &[u8]
    ensures { result.now ≡ strip_bom bytes.now }
{
    if is_marked(bytes) { &bytes[3..] } else { bytes }
}
