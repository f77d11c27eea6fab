//! The lines of a dump, and what each tells.
ghost use Rattle.std.specs.Prelude.{◌≡◌, map, Some, None, IfOk, IsErrOf};
ghost use Rattle.desk_base.specs.Texts.{bytes_of};
ghost use Rattle.serde_json.specs.View.{view};
ghost use Rattle.desk_restore.specs.Reading.{lines_in, told_by, told_in, told_of};

use crate::rows::{batch, clerk, edition, record_of, region, rulebook, session, text_row};
use desk_words::Change;
use json_parts::{PartFault, items, json_of};
use serde_json::Value;
use std::alloc::{AllocError, Global};

/// What stands between the line feeds of a text.
pub fn lines_of(alloc: Global, text: &[u8]) -> Result<Vec<&[u8]>, AllocError>
    ensures { IfOk result (λ lines. bytes_of lines.items ≡ lines_in text.now) }
{
    text.split(|byte| *byte == b'\n').collect(alloc)
}

/// The change that a line tells, or none where it is the first or the last one.
pub fn told_by(alloc: Global, line: &[u8]) -> Result<Option<Change>, PartFault>
    ensures told { IfOk result (λ told. told_by line.now ≡ Some told) }
    ensures none { IsErrOf result PartFault.WrongForm → told_by line.now ≡ None }
{
    match json_of(alloc, line)? {
        Some(value) => told_in(alloc, items(&value)?),
        None => Err(PartFault::WrongForm),
    }
}

/// The same, of the values of the line's array.
fn told_in(alloc: Global, values: &[Value]) -> Result<Option<Change>, PartFault>
    ensures told { IfOk result (λ told. told_in (map view values.now) ≡ Some told) }
    ensures none { IsErrOf result PartFault.WrongForm → told_in (map view values.now) ≡ None }
{
    let [kind, values @ ..] = values else {
        return Err(PartFault::WrongForm);
    };
    let Some(kind) = kind.as_str() else {
        return Err(PartFault::WrongForm);
    };
    told_of(alloc, kind, values)
}

/// The same, of a line of this kind.
fn told_of(alloc: Global, kind: &str, values: &[Value]) -> Result<Option<Change>, PartFault>
    ensures told { IfOk result (λ told. told_of kind.now (map view values.now) ≡ Some told) }
    ensures none { IsErrOf result PartFault.WrongForm → told_of kind.now (map view values.now) ≡ None }
{
    match kind {
        "fixdesk" => Ok(None),
        "clerk" => Ok(Some(clerk(alloc, values)?)),
        "schema" => Ok(Some(Change::Schema(text_row(alloc, values)?))),
        "master" => Ok(Some(Change::Master(text_row(alloc, values)?))),
        "rulebook" => Ok(Some(rulebook(alloc, values)?)),
        "edition" => Ok(Some(edition(alloc, values)?)),
        "region" => Ok(Some(region(alloc, values)?)),
        "session" => Ok(Some(session(alloc, values)?)),
        "record" => Ok(Some(record_of(alloc, values)?)),
        "batch" => Ok(Some(batch(alloc, values)?)),
        "end" => Ok(None),
        _ => Err(PartFault::WrongForm),
    }
}
