//! The limits that requests can meet.
ghost use Rattle.std.specs.Prelude.{◌≡◌};
ghost use Rattle.machine_core.specs.Limits.{limit_of, within};
ghost use Rattle.machine_core.specs.Outcomes.{Finds, WantsNone};

use crate::stop::Stop;
use desk_base::{
    MAX_ACTIVE_SESSIONS, MAX_BATCH_ROWS, MAX_BATCHES, MAX_CLERKS, MAX_EDITIONS, MAX_MASTER_CELLS,
    MAX_MASTERS, MAX_REGION_ROWS, MAX_REGIONS, MAX_SESSIONS, MAX_TEXT_BYTES, MAX_VERSIONS,
};
use desk_words::{Refusal, Which};

/// The most that may stand.
fn limit_of(which: Which) -> u64
    ensures { result ≡ limit_of which }
{
    match which {
        Which::Clerks => MAX_CLERKS as u64,
        Which::Schemas | Which::Masters | Which::Rulebooks => MAX_VERSIONS as u64,
        Which::MasterCells => MAX_MASTER_CELLS,
        Which::EditionMasters => MAX_MASTERS as u64,
        Which::Editions => MAX_EDITIONS as u64,
        Which::RegionRows => MAX_REGION_ROWS as u64,
        Which::Regions => MAX_REGIONS as u64,
        Which::ActiveSessions => MAX_ACTIVE_SESSIONS as u64,
        Which::Sessions => MAX_SESSIONS as u64,
        Which::Bytes => MAX_TEXT_BYTES,
        Which::BatchRows => MAX_BATCH_ROWS as u64,
        Which::Batches => MAX_BATCHES as u64,
    }
}

/// So many would stand, and no more than may. No want of memory is answered.
pub fn within(which: Which, count: u64) -> Result<(), Stop>
    ensures finds { Finds result (within which count) }
    ensures memory { WantsNone result }
{
    let most = limit_of(which);
    if count <= most {
        Ok(())
    } else {
        Err(Stop::Refused(Refusal::Limit(which, most)))
    }
}
