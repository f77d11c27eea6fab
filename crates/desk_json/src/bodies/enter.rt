//! Enter.
ghost use Rattle.std.specs.Prelude.{◌≡◌, ◌≢◌, Ok, Err, IfOk, IfErr};
ghost use Rattle.desk_json.specs.Bodies.Enter.{enter};

use crate::body::{at_key, object};
use crate::fault::JsonFault;
use crate::forms::Cells;
use desk_base::{Duplicate, List, Str};
use desk_words::ClerkWork;
use std::alloc::Global;

pub fn enter(alloc: Global, edition: &Str, body: &[u8]) -> Result<ClerkWork, JsonFault>
    ensures work { IfOk result (λ work. enter edition.now body.now ≡ Ok work) }
    ensures fault { IfErr result (λ fault. fault ≢ JsonFault.NoMemory → enter edition.now body.now ≡ Err fault) }
{
    let object = object(alloc, &["cells", "confirmed"], body)?;
    let cells = at_key::<Cells>(alloc, "cells", &object)?;
    let confirmed = at_key::<List<Str>>(alloc, "confirmed", &object)?;
    Ok(ClerkWork::Enter {
        edition: edition.copy()?,
        cells: cells.into_list(),
        confirmed,
    })
}
