//! Schemas. A clause sees one as a name and a list of attributes, each as bytes.
ghost use Rattle.std.specs.Prelude.{◌≡◌, ◌≢◌, Ok, Err, IfOk, IfErr};
ghost use Rattle.schema_core.specs.Schemas.{IsSchema};
ghost use Rattle.schema_core.specs.Reading.{schema_of};

use crate::fault::SchemaFault;
use crate::reading::{parse, schema_of};
use desk_base::{Duplicate, List, NoMemory, Text};
use std::alloc::Global;

/// The name of a schema, and the attributes of its records in their order.
#[derive(Debug, Drop)]
pub struct Schema {
    /// A name, in a schema that was read.
    pub name: Text,
    /// 1 to 48 distinct words, in a schema that was read.
    pub attributes: List<Text>,
}

impl Schema {
    /// Reads a schema from TOML with exactly the keys `name`, a name, and `attributes`, an array of 1
    /// to 48 distinct words. Otherwise it names the first test that the bytes fail.
    #[tactic(auto, unfolding(crate::specs::Reading::schema_of))]
    pub fn read(alloc: Global, bytes: &[u8]) -> Result<Schema, SchemaFault>
        ensures schema { IfOk result (λ schema. schema_of bytes.now ≡ Ok schema) }
        ensures sound { IfOk result IsSchema }

        // Each refusal but want of memory, exactly where it comes.
        ensures fault { IfErr result (λ fault. fault ≢ SchemaFault.NoMemory
            → schema_of bytes.now ≡ Err fault) }
    {
        let table = parse(alloc, bytes)?;
        schema_of(alloc, &table)
    }
}

impl Duplicate for Schema {
    fn copy(&self) -> Result<Schema, NoMemory> {
        let name = self.name.copy()?;
        let attributes = self.attributes.copy()?;
        Ok(Schema { name, attributes })
    }
}
