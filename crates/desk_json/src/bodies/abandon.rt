//! Abandon.
ghost use Rattle.std.specs.Prelude.{◌≡◌, ◌≢◌, Ok, Err, IfOk, IfErr};
ghost use Rattle.desk_json.specs.Bodies.Abandon.{abandon};

use crate::body::object;
use crate::fault::JsonFault;
use desk_words::ClerkWork;
use std::alloc::Global;

pub fn abandon(alloc: Global, session: u32, body: &[u8]) -> Result<ClerkWork, JsonFault>
    ensures work { IfOk result (λ work. abandon session body.now ≡ Ok work) }
    ensures fault { IfErr result (λ fault. fault ≢ JsonFault.NoMemory → abandon session body.now ≡ Err fault) }
{
    object(alloc, &[], body)?;
    Ok(ClerkWork::Abandon { session })
}
