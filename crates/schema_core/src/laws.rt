//! What holds of the definitions.
ghost use Rattle.std.specs.Prelude.{◌≡◌, ◌≢◌, Ok, Err};
ghost use Rattle.schema_core.specs.declared.fault.SchemaFault.{SchemaFault as FaultOf};
ghost use Rattle.schema_core.specs.Schemas.{IsSchema};
ghost use Rattle.schema_core.specs.Causes.{HasCause};
ghost use Rattle.schema_core.specs.Reading.{document_of, schema_of};

use crate::fault::SchemaFault;
use crate::schema::Schema;

/// What some bytes read as is a schema.
pub fn read_is_schema(bytes: &[u8], schema: &Schema)
    requires { schema_of bytes.now ≡ Ok schema.now }
    ensures { IsSchema schema.now }
{}

/// Each refusal has its cause, whatever else is wrong with the bytes.
pub fn refusals_have_causes(bytes: &[u8])
    ensures { (fault : FaultOf) → schema_of bytes.now ≡ Err fault → HasCause (document_of bytes.now) fault }
{}

/// Want of memory is nothing that some bytes read as.
pub fn read_wants_no_memory(bytes: &[u8])
    ensures { schema_of bytes.now ≢ Err SchemaFault.NoMemory }
{}
