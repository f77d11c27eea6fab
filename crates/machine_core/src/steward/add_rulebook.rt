//! AddRulebook: the next version of a rulebook's name, over a version of a schema.
ghost use Rattle.std.specs.Prelude.{◌<◌, length, IfOk};
ghost use Rattle.desk_words.specs.Tables.{published_of, rows_of};
ghost use Rattle.desk_valid.specs.Valid.{AreValid};
ghost use Rattle.machine_core.specs.Outcomes.{Finds};
ghost use Rattle.machine_core.specs.Steward.AddRulebook.{rulebook_row};

use crate::faults::read_rulebook;
use crate::finding::{named, next_version};
use crate::limits::within;
use crate::naming::{name_text, proper_name};
use crate::stop::Stop;
use desk_base::{Duplicate, List, Str};
use desk_valid::schema_of;
use desk_words::{Kind, RulebookRow, Tables, Which};
use std::alloc::Global;

/// The row of a new rulebook over a version of a schema.
pub fn rulebook_row(
    alloc: Global,
    tables: &Tables,
    name: &Str,
    schema: &Str,
    version: u32,
    body: &List<u8>,
) -> Result<RulebookRow, Stop>
    requires { AreValid (rows_of tables.now) }
    ensures row { Finds result
        (rulebook_row (published_of (rows_of tables.now)) name.now schema.now version body.now) }
    ensures over { IfOk result (λ row. row.schema < length tables.now.schemas.items) }
{
    proper_name(name)?;
    let place = named(tables.schemas.as_slice(), schema, version, Kind::Schema)?;
    let read = schema_of(alloc, tables, place)?;
    read_rulebook(alloc, body.as_slice(), &read)?;
    let rulebooks = tables.rulebooks.as_slice();
    within(Which::Rulebooks, rulebooks.len() as u64 + 1)?;
    let next = next_version(rulebooks, name.as_str());
    Ok(RulebookRow {
        name: name_text(alloc, name)?,
        version: next,
        schema: place,
        body: body.copy()?,
    })
}
