//! AddClerk.
ghost use Rattle.std.specs.Prelude.{◌≡◌, ◌≢◌, Ok, Err, IfOk, IfErr};
ghost use Rattle.desk_json.specs.Bodies.AddClerk.{add_clerk};

use crate::body::{at_key, object};
use crate::fault::JsonFault;
use desk_base::Str;
use desk_words::StewardWork;
use std::alloc::Global;

pub fn add_clerk(alloc: Global, body: &[u8]) -> Result<StewardWork, JsonFault>
    ensures work { IfOk result (λ work. add_clerk body.now ≡ Ok work) }
    ensures fault { IfErr result (λ fault. fault ≢ JsonFault.NoMemory → add_clerk body.now ≡ Err fault) }
{
    let object = object(alloc, &["name"], body)?;
    let name = at_key::<Str>(alloc, "name", &object)?;
    Ok(StewardWork::AddClerk { name })
}
