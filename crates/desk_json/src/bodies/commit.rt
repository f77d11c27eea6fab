//! Commit.
ghost use Rattle.std.specs.Prelude.{◌≡◌, ◌≢◌, Ok, Err, IfOk, IfErr};
ghost use Rattle.desk_json.specs.Bodies.Commit.{commit};

use crate::body::{at_key, object};
use crate::fault::JsonFault;
use desk_words::{Accept, ClerkWork};
use std::alloc::Global;

pub fn commit(alloc: Global, session: u32, body: &[u8]) -> Result<ClerkWork, JsonFault>
    ensures work { IfOk result (λ work. commit session body.now ≡ Ok work) }
    ensures fault { IfErr result (λ fault. fault ≢ JsonFault.NoMemory → commit session body.now ≡ Err fault) }
{
    let object = object(alloc, &["accept"], body)?;
    let accept = at_key::<Accept>(alloc, "accept", &object)?;
    Ok(ClerkWork::Commit { session, accept })
}
