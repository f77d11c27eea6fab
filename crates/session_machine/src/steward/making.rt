//! What each of the steward's writes makes, with its reply.
ghost use Rattle.machine_workplace.specs.Ready.{IsReady};
ghost use Rattle.machine_core.specs.Outcomes.{Answers};
ghost use Rattle.session_machine.specs.Made.{made_by};

use crate::steward::regions::add_region;
use crate::steward::versions::{add_clerk, publish};
use desk_totals::Totalled;
use desk_words::{Made, StewardWork};
use machine_core::{Making, Stop};
use machine_workplace::Workplace;

/// What a write of the steward makes, with its reply over the rows after it.
pub fn made_by(
    totalled: &Totalled,
    workplace: &mut Workplace,
    work: &StewardWork,
) -> Result<(Made, Making), Stop>
    requires ready { IsReady totalled.now workplace.old }
    ensures answers { Answers result (made_by totalled.now work.now) }
    ensures ready { IsReady totalled.now workplace.new }
{
    let tables = totalled.tables();
    match work {
        StewardWork::AddClerk { name } => add_clerk(workplace.alloc, tables, name),
        StewardWork::Publish(proposal) => {
            publish(workplace.alloc, tables, totalled.master_cells(), proposal)
        }
        StewardWork::AddRegion { .. } | StewardWork::AddDerived { .. } => {
            add_region(tables, workplace, work)
        }
    }
}
