//! AddRegion.
ghost use Rattle.std.specs.Prelude.{◌≡◌, ◌≢◌, Ok, Err, IfOk, IfErr};
ghost use Rattle.desk_json.specs.Bodies.AddRegion.{add_region};

use crate::body::{at_key, object};
use crate::fault::JsonFault;
use desk_base::{Duplicate, List, Str};
use desk_words::StewardWork;
use std::alloc::Global;

pub fn add_region(
    alloc: Global,
    edition: &Str,
    version: u32,
    body: &[u8],
) -> Result<StewardWork, JsonFault>
    ensures work { IfOk result (λ work. add_region edition.now version body.now ≡ Ok work) }
    ensures fault { IfErr result (λ fault. fault ≢ JsonFault.NoMemory
        → add_region edition.now version body.now ≡ Err fault) }
{
    let object = object(alloc, &["attributes", "rows"], body)?;
    let attrs = at_key::<List<Str>>(alloc, "attributes", &object)?;
    let rows = at_key::<List<List<Str>>>(alloc, "rows", &object)?;
    Ok(StewardWork::AddRegion {
        edition: edition.copy()?,
        version,
        attrs,
        rows,
    })
}
