//! Confirm, and Preview, which has the same body.
ghost use Rattle.std.specs.Prelude.{◌≡◌, ◌≢◌, Ok, Err, IfOk, IfErr};
ghost use Rattle.desk_json.specs.Bodies.Confirm.{cells_body, confirm, preview};

use crate::body::{at_key, object};
use crate::fault::JsonFault;
use crate::forms::Cells;
use desk_base::{List, Str};
use desk_words::{ClerkWork, Look};
use std::alloc::Global;

pub fn confirm(alloc: Global, session: u32, body: &[u8]) -> Result<ClerkWork, JsonFault>
    ensures work { IfOk result (λ work. confirm session body.now ≡ Ok work) }
    ensures fault { IfErr result (λ fault. fault ≢ JsonFault.NoMemory → confirm session body.now ≡ Err fault) }
{
    let cells = cells_body(alloc, body)?;
    Ok(ClerkWork::Confirm { session, cells })
}

pub fn preview(alloc: Global, session: u32, body: &[u8]) -> Result<Look, JsonFault>
    ensures look { IfOk result (λ look. preview session body.now ≡ Ok look) }
    ensures fault { IfErr result (λ fault. fault ≢ JsonFault.NoMemory → preview session body.now ≡ Err fault) }
{
    let cells = cells_body(alloc, body)?;
    Ok(Look::Preview { session, cells })
}

fn cells_body(alloc: Global, body: &[u8]) -> Result<List<(Str, Str)>, JsonFault>
    ensures cells { IfOk result (λ cells. cells_body body.now ≡ Ok cells) }
    ensures fault { IfErr result (λ fault. fault ≢ JsonFault.NoMemory → cells_body body.now ≡ Err fault) }
{
    let object = object(alloc, &["cells"], body)?;
    let cells = at_key::<Cells>(alloc, "cells", &object)?;
    Ok(cells.into_list())
}
