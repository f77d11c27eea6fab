//! Carry: the session goes on over a newer version of its edition.
ghost use Rattle.desk_words.specs.Tables.{published_of, rows_of};
ghost use Rattle.desk_valid.specs.Valid.{AreValid};
ghost use Rattle.machine_core.specs.Clerk.Carry.{carry};
ghost use Rattle.machine_core.specs.Outcomes.{Finds};
ghost use Rattle.machine_core.specs.Own.{IsOwn};

use desk_words::{Act, Tables};
use machine_core::{Deed, Own, Stop, carry_row};
use std::alloc::Global;

/// Carry: the session goes on over a newer version of its edition.
pub fn carry_deed(
    alloc: Global,
    tables: &Tables,
    own: &Own,
    number: u32,
    version: u32,
) -> Result<Deed, Stop>
    requires valid { AreValid (rows_of tables.now) }
    requires own { IsOwn (rows_of tables.now) own.now }
    ensures { Finds result (carry (published_of (rows_of tables.now)) own.now number version) }
{
    let session = carry_row(alloc, tables, own, number, version)?;
    Ok(Deed::puts(alloc, number - 1, session, Act::Changed)?)
}
