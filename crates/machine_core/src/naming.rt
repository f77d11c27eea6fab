//! Names of what is new.
ghost use Rattle.std.specs.Prelude.{◌≡◌, ◌≤◌, IfOk, OnOk, length};
ghost use Rattle.machine_core.specs.Outcomes.{Finds};
ghost use Rattle.machine_core.specs.Tests.{proper_name};

use crate::stop::Stop;
use desk_base::{Duplicate, NoMemory, Str, Text, is_name};
use desk_words::Refusal;
use std::alloc::Global;

/// The text is a name.
pub(crate) fn proper_name(text: &Str) -> Result<(), Stop>
    ensures finds { Finds result (proper_name text.now) }
    ensures short { OnOk result (length text.now ≤ 32) }
{
    if is_name(text.as_str().as_bytes()) {
        Ok(())
    } else {
        Err(Stop::Refused(Refusal::BadName(text.copy()?)))
    }
}

/// The text of a name.
pub(crate) fn name_text(alloc: Global, name: &Str) -> Result<Text, NoMemory>
    requires { length name.now ≤ 32 }
    ensures { IfOk result (λ text. text ≡ name.now) }
{
    Text::of(alloc, name.as_str())
}
