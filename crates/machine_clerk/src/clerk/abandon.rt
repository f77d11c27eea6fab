//! Abandon: the session is closed without a record.
ghost use Rattle.machine_core.specs.Clerk.Abandon.{abandon};
ghost use Rattle.machine_core.specs.Outcomes.{Finds};

use desk_base::Duplicate;
use desk_words::{Act, Stage};
use machine_core::{Deed, Own, Stop, active_session};
use std::alloc::Global;

/// Abandon: the session is closed without a record.
pub fn abandon_deed(alloc: Global, own: &Own, number: u32) -> Result<Deed, Stop>
    ensures { Finds result (abandon own.now number) }
{
    let mut session = active_session(own.sessions(), number)?.copy()?;
    session.stage = Stage::Abandoned;
    Ok(Deed::puts(alloc, number - 1, session, Act::Changed)?)
}
