//! The links of a door, served one after another.
ghost use Rattle.std.specs.Prelude.{◌≡◌, ◌+◌, ◌<◌, ◌≤◌, ℕ, IfOk, IsOk, OnErr, Some};
ghost use Rattle.desk_base.specs.Faults.{Rose};
ghost use Rattle.desk_links.specs.Doors.{MayAccept};
ghost use Rattle.keeper_core.specs.Keeping.{IfTold, TellsNoMore};
ghost use Rattle.fixdesk_run.specs.Site.{IsUnchanged, LogsOne, PassesCount, PassesFewer};
ghost use Rattle.fixdesk_run.specs.Standing.{standing};
ghost use Rattle.fixdesk_run.specs.Visits.{is_early};

use desk_base::Failed;
use desk_links::Listener;
use http_cut::Intake;
use http_desk::{Ended, Front, Log, NoLog, serve_link};
use keeper_core::Keeper;
use machine_core::Machine;

/// Serves so many links of a door that was bound, over a front, one after another, with one intake for all of them, and
/// answers how many of them ended early.
pub fn serve_links<M: Machine + Drop, K: Keeper, L: Listener>(
    front: &Front<'_>,
    count: u32,
    intake: &mut Intake,
    machine: &mut M,
    keeper: &mut K,
    door: &mut L,
) -> Result<u32, Failed>
    requires bound { (L.seen door.old).accepted ≡ Some 0 }
    requires idle { (L.seen door.old).live ≡ 0 }
    requires told { IfTold (K.tables keeper.old) (M.rows machine.old) }
    ensures passed { let desk = standing M.Machine K.Keeper in
        IfOk result (PassesCount front.now (desk machine.old keeper.old) (desk machine.new keeper.new) (L.seen door.old)
        (L.seen door.new) count) }
    ensures refused { let desk = standing M.Machine K.Keeper in
        OnErr result (PassesFewer front.now (desk machine.old keeper.old) (desk machine.new keeper.new) (L.seen door.old)
        (L.seen door.new) count) }
    ensures told { IfTold (K.tables keeper.new) (M.rows machine.new) }
    ensures no_more { TellsNoMore (K.tables keeper.old) (K.tables keeper.new) }
    ensures later { (L.seen door.old).faults ≤ (L.seen door.new).faults }
    ensures idle { (L.seen door.new).live ≡ 0 }
    ensures offers { L.offers door.old count → IsOk result }
{
    let mut served: u32 = 0;
    let mut early: u32 = 0;
    'links: while served < count {
        let end = serve_next::<M, K, L, NoLog>(front, intake, machine, keeper, door, &mut NoLog)?;
        early += u32::from(is_early(end));
        served += 1;
    }
    Ok(early)
}

/// Serves the next link of a door over a front, with at most one request, closes it, and tells its request in a log.
/// Answers how its stream ended. Where the door fails, nothing has changed but how often it has failed.
pub fn serve_next<M: Machine + Drop, K: Keeper, L: Listener, G: Log>(
    front: &Front<'_>,
    intake: &mut Intake,
    machine: &mut M,
    keeper: &mut K,
    door: &mut L,
    log: &mut G,
) -> Result<Ended, Failed>
    requires idle { (L.seen door.old).live ≡ 0 }
    requires bound { MayAccept (L.seen door.old).accepted }
    requires told { IfTold (K.tables keeper.old) (M.rows machine.old) }
    ensures passed { let desk = standing M.Machine K.Keeper in
        IfOk result (LogsOne front.now (desk machine.old keeper.old) (desk machine.new keeper.new) (L.seen door.old)
        (L.seen door.new) (G.line log.new)) }
    ensures refused { let desk = standing M.Machine K.Keeper in
        OnErr result ((desk machine.new keeper.new ≡ desk machine.old keeper.old)
        × IsUnchanged (L.seen door.old) (L.seen door.new) × Rose (L.seen door.old).faults (L.seen door.new).faults) }
    ensures untouched { OnErr result ((intake.new ≡ intake.old) × (machine.new ≡ machine.old)
        × (keeper.new ≡ keeper.old) × (log.new ≡ log.old)) }
    ensures told { IfTold (K.tables keeper.new) (M.rows machine.new) }
    ensures no_more { TellsNoMore (K.tables keeper.old) (K.tables keeper.new) }
    ensures later { (L.seen door.old).faults ≤ (L.seen door.new).faults }
    ensures offers { (count : ℕ) → L.offers door.old (count + 1) → IsOk result × L.offers door.new count }
{
    let mut link = door.accept()?;
    let end = serve_link(front, intake, machine, keeper, &mut link, 1, log);
    door.close(link);
    Ok(end)
}

/// Whether a stream ended otherwise than after its request, or at once.
fn is_early(end: Ended) -> bool
    ensures { result ≡ is_early end }
{
    match end {
        Ended::Clean | Ended::Limit => false,
        Ended::BadHead | Ended::Chunked | Ended::BodyLong | Ended::Truncated(_) => true,
        Ended::ReadFault | Ended::WriteFault | Ended::NoMemory => true,
    }
}
