//! AddEdition, and CheckEdition, which has the same body.
ghost use Rattle.std.specs.Prelude.{◌≡◌, ◌≢◌, Ok, Err, IfOk, IfErr};
ghost use Rattle.desk_json.specs.Bodies.AddEdition.{proposed_edition};

use crate::body::{at_key, at_key_or, object};
use crate::fault::JsonFault;
use desk_base::{Duplicate, List, Str};
use desk_words::Proposal;
use std::alloc::Global;

pub fn proposed_edition(alloc: Global, name: &Str, body: &[u8]) -> Result<Proposal, JsonFault>
    ensures proposal { IfOk result (λ proposal. proposed_edition name.now body.now ≡ Ok proposal) }
    ensures fault { IfErr result (λ fault. fault ≢ JsonFault.NoMemory
        → proposed_edition name.now body.now ≡ Err fault) }
{
    let object = object(alloc, &["folded", "masters", "rulebook"], body)?;
    let masters = at_key::<List<(Str, u32)>>(alloc, "masters", &object)?;
    let rulebook = at_key::<(Str, u32)>(alloc, "rulebook", &object)?;
    let folded = at_key_or::<List<Str>>(alloc, "folded", List::new(alloc), &object)?;
    Ok(Proposal::Edition {
        name: name.copy()?,
        rulebook,
        masters,
        folded,
    })
}
