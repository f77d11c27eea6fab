//! AddSchema: the next version of the schema's name.
ghost use Rattle.std.specs.Prelude.{◌<◌, ◌^◌, length};
ghost use Rattle.machine_core.specs.Outcomes.{Finds};
ghost use Rattle.machine_core.specs.Steward.AddSchema.{schema_row};
ghost use Rattle.machine_core.specs.Versions.{AreVersions};

use crate::faults::read_schema;
use crate::finding::next_version;
use crate::limits::within;
use crate::stop::Stop;
use desk_base::{Duplicate, List};
use desk_words::{TextRow, Which};
use std::alloc::Global;

/// The row of a new schema.
pub fn schema_row(alloc: Global, schemas: &[TextRow], body: &List<u8>) -> Result<TextRow, Stop>
    requires versions { AreVersions (λ row. row.name) (λ row. row.version) schemas.now }
    requires few { length schemas.now < 2 ^ 31 }
    ensures { Finds result (schema_row schemas.now body.now) }
{
    let schema = read_schema(alloc, body.as_slice())?;
    within(Which::Schemas, schemas.len() as u64 + 1)?;
    let version = next_version(schemas, schema.name.as_str());
    Ok(TextRow {
        name: schema.name,
        version,
        body: body.copy()?,
    })
}
