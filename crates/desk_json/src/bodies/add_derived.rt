//! AddDerived.
ghost use Rattle.std.specs.Prelude.{◌≡◌, ◌≢◌, Ok, Err, IfOk, IfErr};
ghost use Rattle.desk_json.specs.Bodies.AddDerived.{add_derived};

use crate::body::{at_key, object};
use crate::fault::JsonFault;
use desk_base::{Duplicate, List, Str};
use desk_words::StewardWork;
use std::alloc::Global;

pub fn add_derived(
    alloc: Global,
    edition: &Str,
    version: u32,
    body: &[u8],
) -> Result<StewardWork, JsonFault>
    ensures work { IfOk result (λ work. add_derived edition.now version body.now ≡ Ok work) }
    ensures fault { IfErr result (λ fault. fault ≢ JsonFault.NoMemory
        → add_derived edition.now version body.now ≡ Err fault) }
{
    let object = object(alloc, &["from", "master", "pairs"], body)?;
    let from = at_key::<u32>(alloc, "from", &object)?;
    let master = at_key::<Str>(alloc, "master", &object)?;
    let pairs = at_key::<List<(Str, Str)>>(alloc, "pairs", &object)?;
    Ok(StewardWork::AddDerived {
        edition: edition.copy()?,
        version,
        master,
        pairs,
        from,
    })
}
