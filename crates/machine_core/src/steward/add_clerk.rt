//! AddClerk: a clerk who has done nothing yet.
ghost use Rattle.std.specs.Prelude.{◌≡◌};
ghost use Rattle.std.specs.List.{list_any};
ghost use Rattle.std.specs.Str.{bytes_eq};
ghost use Rattle.machine_core.specs.Outcomes.{Finds};
ghost use Rattle.machine_core.specs.Steward.AddClerk.{clerk_row};

use crate::limits::within;
use crate::naming::{name_text, proper_name};
use crate::stop::Stop;
use desk_base::{Duplicate, Str};
use desk_words::{ClerkRow, Refusal, Which};
use std::alloc::Global;

/// The row of a new clerk.
pub fn clerk_row(alloc: Global, clerks: &[ClerkRow], name: &Str) -> Result<ClerkRow, Stop>
    ensures { Finds result (clerk_row clerks.now name.now) }
{
    proper_name(name)?;
    if is_taken(clerks, name.as_str()) {
        return Err(Stop::Refused(Refusal::Taken(name.copy()?)));
    }
    within(Which::Clerks, clerks.len() as u64)?;
    Ok(ClerkRow::new(name_text(alloc, name)?))
}

fn is_taken(clerks: &[ClerkRow], name: &str) -> bool
    ensures { result ≡ list_any (λ clerk. bytes_eq clerk.name name.now) clerks.now }
{
    clerks.iter().any(|clerk| clerk.name.as_str() == name)
}
