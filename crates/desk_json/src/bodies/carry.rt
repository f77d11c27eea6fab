//! Carry.
ghost use Rattle.std.specs.Prelude.{◌≡◌, ◌≢◌, Ok, Err, IfOk, IfErr};
ghost use Rattle.desk_json.specs.Bodies.Carry.{carry};

use crate::body::{at_key, object};
use crate::fault::JsonFault;
use desk_words::ClerkWork;
use std::alloc::Global;

pub fn carry(alloc: Global, session: u32, body: &[u8]) -> Result<ClerkWork, JsonFault>
    ensures work { IfOk result (λ work. carry session body.now ≡ Ok work) }
    ensures fault { IfErr result (λ fault. fault ≢ JsonFault.NoMemory → carry session body.now ≡ Err fault) }
{
    let object = object(alloc, &["version"], body)?;
    let version = at_key::<u32>(alloc, "version", &object)?;
    Ok(ClerkWork::Carry { session, version })
}
