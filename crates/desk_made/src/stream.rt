//! The stream that the generator makes.
ghost use Rattle.std.specs.Prelude.{◌≡◌, ◌^◌, ◌<◌, IfOk};
ghost use Rattle.desk_made.specs.Made.{made_requests};
ghost use Rattle.desk_made.specs.Requests.{stream_of};

use crate::sessions::push_sessions;
use crate::steward::{push_clerk, push_edition, push_master, push_rulebook, push_schema};
use desk_base::{List, NoMemory};
use std::alloc::Global;

/// The bytes of the requests that make a desk with a schema of 48 attributes, a master of 20,000 rows and 200 rules,
/// and open so many sessions, by draws from a start (docs/formats.md, *The generator*).
pub fn made(alloc: Global, count: u32, start: u32) -> Result<List<u8>, NoMemory>
    requires { start < 2 ^ 31 }
    ensures { IfOk result (λ bytes. bytes ≡ stream_of (made_requests count start)) }
{
    let mut bytes = Vec::new(alloc);
    push_clerk(&mut bytes)?;
    push_schema(&mut bytes)?;
    push_master(&mut bytes)?;
    push_rulebook(&mut bytes)?;
    push_edition(&mut bytes)?;
    push_sessions(&mut bytes, count, start)?;
    Ok(List::from_vec(bytes))
}
