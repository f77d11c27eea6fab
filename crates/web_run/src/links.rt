//! The links of a door, served one after another, and logged.
ghost use Rattle.std.specs.Prelude.{◌≡◌, ◌≤◌, Some, None};
ghost use Rattle.keeper_core.specs.Keeping.{IfTold, TellsNoMore};
ghost use Rattle.fixdesk_run.specs.Link.{link_with};
ghost use Rattle.fixdesk_run.specs.Standing.{standing};
ghost use Rattle.web_run.specs.Links.{EndsLinks};
ghost use Rattle.web_run.specs.Serving.{TakesAll};

use desk_base::{Failed, Sink, write_all};
use desk_links::Listener;
use fixdesk_run::{ServeEnd, serve_next};
use http_cut::Intake;
use http_desk::{Front, LogLine};
use keeper_core::Keeper;
use machine_core::Machine;

/// Serves so many links of a door that was bound, over a front, one after another, with one intake for all of them, and
/// logs each on the output once it is closed.
pub fn serve_links<M: Machine + Drop, K: Keeper, L: Listener, W: Sink>(
    front: &Front<'_>,
    count: u32,
    intake: &mut Intake,
    log: &mut LogLine,
    machine: &mut M,
    keeper: &mut K,
    door: &mut L,
    out: &mut W,
) -> ServeEnd
    requires bound { (L.seen door.old).accepted ≡ Some 0 }
    requires idle { (L.seen door.old).live ≡ 0 }
    requires told { IfTold (K.tables keeper.old) (M.rows machine.old) }
    ensures ends { let desk = standing M.Machine K.Keeper in
        let link = link_with W.Sink None 0 in
        EndsLinks front.now count (desk machine.old keeper.old) (desk machine.new keeper.new) (L.seen door.old)
        (L.seen door.new) (link out.old) (link out.new) result }
    ensures told { IfTold (K.tables keeper.new) (M.rows machine.new) }
    ensures no_more { TellsNoMore (K.tables keeper.old) (K.tables keeper.new) }
    ensures later { (L.seen door.old).faults ≤ (L.seen door.new).faults }
    ensures later_out { W.write_faults out.old ≤ W.write_faults out.new }
    ensures idle { (L.seen door.new).live ≡ 0 }
    ensures complete { L.offers door.old count → TakesAll (W.takes out.old) → result ≡ ServeEnd.Done }
{
    let mut served: u32 = 0;
    'links: while served < count {
        if let Err(Failed) = serve_next::<M, K, L, LogLine>(
            front, intake, machine, keeper, door, log,
        ) {
            return ServeEnd::DoorFault;
        }
        if let Err(Failed) = write_all(out, log.bytes()) {
            return ServeEnd::WriteFault;
        }
        served += 1;
    }
    ServeEnd::Done
}
