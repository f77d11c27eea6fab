//! The requests of the steward, which make what sessions stand on.
ghost use Rattle.std.specs.Prelude.{◌≡◌, ◌++◌, OnOk};
ghost use Rattle.desk_made.specs.Made.{add_clerk, add_edition, add_master, add_rulebook, add_schema};
ghost use Rattle.desk_made.specs.Requests.{request_bytes};

use crate::master::master;
use crate::requests::push_post;
use crate::rulebook::rulebook;
use crate::schema::{big, schema_text};
use desk_base::NoMemory;
use rule_text::print;

/// Puts the request for the clerk `amy` after these bytes.
pub fn push_clerk(bytes: &mut Vec<u8>) -> Result<(), NoMemory>
    ensures { OnOk result (bytes.new.items ≡ bytes.old.items ++ request_bytes add_clerk) }
{
    push_post(bytes, "/steward/1/clerks", b"{\"name\":\"amy\"}")
}

/// Puts the request for the schema `big` after these bytes.
pub fn push_schema(bytes: &mut Vec<u8>) -> Result<(), NoMemory>
    ensures { OnOk result (bytes.new.items ≡ bytes.old.items ++ request_bytes add_schema) }
{
    let alloc = *bytes.allocator();
    let text = schema_text(alloc, &big(alloc)?)?;
    push_post(bytes, "/steward/2/schemas", text.as_slice())
}

/// Puts the request for the master `m` after these bytes.
pub fn push_master(bytes: &mut Vec<u8>) -> Result<(), NoMemory>
    ensures { OnOk result (bytes.new.items ≡ bytes.old.items ++ request_bytes add_master) }
{
    let sheet = master(*bytes.allocator())?.print()?;
    push_post(bytes, "/steward/3/masters/m", sheet.as_slice())
}

/// Puts the request for the rulebook `b` after these bytes.
pub fn push_rulebook(bytes: &mut Vec<u8>) -> Result<(), NoMemory>
    ensures { OnOk result (bytes.new.items ≡ bytes.old.items ++ request_bytes add_rulebook) }
{
    let alloc = *bytes.allocator();
    let text = print(alloc, &rulebook(alloc)?, &big(alloc)?)?;
    push_post(bytes, "/steward/4/rulebooks/b/big/1", text.as_slice())
}

/// Puts the request for the edition `e` after these bytes.
pub fn push_edition(bytes: &mut Vec<u8>) -> Result<(), NoMemory>
    ensures { OnOk result (bytes.new.items ≡ bytes.old.items ++ request_bytes add_edition) }
{
    push_post(
        bytes,
        "/steward/5/editions/e",
        b"{\"masters\":[[\"m\",1]],\"rulebook\":[\"b\",1]}",
    )
}
