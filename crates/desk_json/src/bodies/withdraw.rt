//! Withdraw.
ghost use Rattle.std.specs.Prelude.{◌≡◌, ◌≢◌, Ok, Err, IfOk, IfErr};
ghost use Rattle.desk_json.specs.Bodies.Withdraw.{withdraw};

use crate::body::{at_key, object};
use crate::fault::JsonFault;
use desk_base::{List, Str};
use desk_words::ClerkWork;
use std::alloc::Global;

pub fn withdraw(alloc: Global, session: u32, body: &[u8]) -> Result<ClerkWork, JsonFault>
    ensures work { IfOk result (λ work. withdraw session body.now ≡ Ok work) }
    ensures fault { IfErr result (λ fault. fault ≢ JsonFault.NoMemory → withdraw session body.now ≡ Err fault) }
{
    let object = object(alloc, &["names"], body)?;
    let names = at_key::<List<Str>>(alloc, "names", &object)?;
    Ok(ClerkWork::Withdraw { session, names })
}
