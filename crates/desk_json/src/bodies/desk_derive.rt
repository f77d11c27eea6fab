//! DeskDerive.
ghost use Rattle.std.specs.Prelude.{◌≡◌, ◌≢◌, Ok, Err, IfOk, IfErr};
ghost use Rattle.desk_json.specs.Bodies.DeskDerive.{desk_derive};

use crate::body::{at_key, object};
use crate::fault::JsonFault;
use desk_base::{Duplicate, List, Str};
use desk_words::DeskLook;
use std::alloc::Global;

pub fn desk_derive(
    alloc: Global,
    edition: &Str,
    version: u32,
    body: &[u8],
) -> Result<DeskLook, JsonFault>
    ensures look { IfOk result (λ look. desk_derive edition.now version body.now ≡ Ok look) }
    ensures fault { IfErr result (λ fault. fault ≢ JsonFault.NoMemory
        → desk_derive edition.now version body.now ≡ Err fault) }
{
    let object = object(alloc, &["master", "pairs"], body)?;
    let master = at_key::<Str>(alloc, "master", &object)?;
    let pairs = at_key::<List<(Str, Str)>>(alloc, "pairs", &object)?;
    Ok(DeskLook::Derive {
        edition: edition.copy()?,
        version,
        master,
        pairs,
    })
}
