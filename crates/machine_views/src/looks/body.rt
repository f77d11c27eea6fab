//! Body: what was published as a text, as it was sent.
ghost use Rattle.desk_words.specs.Tables.{published_of, rows_of};
ghost use Rattle.desk_valid.specs.Valid.{AreValid};
ghost use Rattle.machine_core.specs.DeskLook.Bodies.{body_of};
ghost use Rattle.machine_core.specs.Outcomes.{Finds};

use desk_base::{Duplicate, List, Str};
use desk_words::{Kind, Publication, Tables};
use machine_core::{Stop, named};

/// The body of this version of a schema, a master or a rulebook, byte for byte. It is copied once, and nothing is read.
pub fn body_of(
    tables: &Tables,
    what: Publication,
    name: &Str,
    version: u32,
) -> Result<List<u8>, Stop>
    requires valid { AreValid (rows_of tables.now) }
    ensures body { Finds result (body_of (published_of (rows_of tables.now)) what name.now version) }
{
    match what {
        Publication::Schema => {
            let rows = tables.schemas.as_slice();
            let place = named(rows, name, version, Kind::Schema)?;
            Ok(rows[place as usize].body.copy()?)
        }
        Publication::Master => {
            let rows = tables.masters.as_slice();
            let place = named(rows, name, version, Kind::Master)?;
            Ok(rows[place as usize].body.copy()?)
        }
        Publication::Rulebook => {
            let rows = tables.rulebooks.as_slice();
            let place = named(rows, name, version, Kind::Rulebook)?;
            Ok(rows[place as usize].body.copy()?)
        }
    }
}
