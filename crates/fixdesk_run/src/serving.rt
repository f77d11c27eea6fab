//! The top call of the program `fixdeskd`.
ghost use Rattle.std.specs.Prelude.{◌≡◌, map, string_bytes};
ghost use Rattle.http_desk.specs.Fronts.{bare};
ghost use Rattle.fixdesk_run.specs.Plan.{plan_of};
ghost use Rattle.fixdesk_run.specs.Serve.{AreSteadyFor, EndsServing, IsServedFaultless, LeavesServed, TakesSaid};
ghost use Rattle.fixdesk_run.specs.Serve.{TakesTally, end_code, serve_usage};
ghost use Rattle.fixdesk_run.specs.Site.{site};

use crate::plan::{Plan, plan_of};
use crate::service::{Service, run_service};
use crate::tally::{begin_line, end_line};
use crate::visits::serve_links;
use desk_base::{Failed, NoMemory, Sink, write_all};
use desk_links::Listener;
use http_cut::Intake;
use http_desk::Front;
use keeper_core::Keeper;
use machine_core::Machine;
use std::alloc::Global;

/// The line that answers words which are no port and count.
const USAGE: &[u8] = b"usage: fixdeskd PORT COUNT\n";

/// How the serving of a door's links ended.
#[derive(Clone, Copy, Debug, PartialEq, Eq)]
pub enum ServeEnd {
    /// All links were served, and the line that counts them was written.
    Done,
    /// The output could not be written to.
    WriteFault,
    /// There was no memory, before the door was bound.
    NoMemory,
    /// The door failed.
    DoorFault,
}

impl ServeEnd {
    /// The end as the program's exit status (docs/formats.md, *Statuses of `fixdeskd`*).
    pub fn code(self) -> u8
        ensures { result ≡ end_code self }
    {
        match self {
            ServeEnd::Done => 0,
            ServeEnd::WriteFault => 3,
            ServeEnd::NoMemory => 5,
            ServeEnd::DoorFault => 9,
        }
    }
}

/// Serves the links of a door, as the words say, which are without the program's name: a port, from 1 to 65,535, and
/// how many links, from 1 to 1,000,000. Answers the exit status (docs/formats.md, *Statuses of `fixdeskd`*).
///
/// A machine `M` begins over the keeper's tables, and the door is bound to the port. Then the links are served one
/// after another, each with at most one request, and closed. A link whose stream ends otherwise than after its
/// request, or at once, ends alone. After the last a line is written that says how many links there were and how many
/// ended so, with status 0. All other words are answered with the usage line, with status 1. An output that fails gives
/// 3, a keeper that fails at the beginning 4, want of memory 5, damaged tables a line that names the first damaged row,
/// with status 6, and a door that fails 9. At 1, 4, 5 and 6 the door was not called.
pub fn serve<M: Machine + Drop, K: Keeper, L: Listener, W: Sink>(
    alloc: Global,
    words: &[String],
    keeper: &mut K,
    door: &mut L,
    out: &mut W,
) -> u8
    requires { (L.seen door.old).live ≡ 0 }
    ensures leaves { let site = site W.Sink K.Keeper L.Listener in
        LeavesServed (K.holds keeper.old) (map string_bytes words.now) (site out.old keeper.old door.old)
        (site out.new keeper.new door.new) result }
    ensures idle { (L.seen door.new).live ≡ 0 }
    ensures complete { let site = site W.Sink K.Keeper L.Listener in
        let plan = plan_of (map string_bytes words.now) in
        AreSteadyFor (K.is_steady keeper.old) (L.offers door.old) plan
        → TakesSaid (W.takes out.old) plan (site out.old keeper.old door.old)
        → IsServedFaultless plan result }
{
    run_service::<M, _, K, L, W>(alloc, &Counting, words, keeper, door, out)
}

/// Links that are served over a bare front, and counted.
#[derive(Debug, Drop)]
struct Counting;

impl Service for Counting {
    ghost usage_line = { λ _. serve_usage };

    ghost planned = { λ _. plan_of };

    ghost leaves = { λ _. EndsServing bare };

    ghost takes = { λ _ takes plan. TakesTally takes plan.count };

    fn usage(&self) -> &[u8] {
        USAGE
    }

    fn plan(&self, words: &[String]) -> Option<Plan> {
        plan_of(words)
    }

    fn serve_plan<M: Machine + Drop, K: Keeper, L: Listener, W: Sink>(
        &self,
        alloc: Global,
        plan: Plan,
        machine: &mut M,
        keeper: &mut K,
        door: &mut L,
        out: &mut W,
    ) -> ServeEnd {
        let mut intake = match Intake::new(alloc) {
            Ok(intake) => intake,
            Err(NoMemory) => return ServeEnd::NoMemory,
        };
        let line = match begin_line(alloc, plan.count) {
            Ok(line) => line,
            Err(NoMemory) => return ServeEnd::NoMemory,
        };
        if let Err(Failed) = door.bind(plan.port) {
            return ServeEnd::DoorFault;
        }
        let front = Front::bare();
        let early = match serve_links::<M, K, L>(
            &front,
            plan.count,
            &mut intake,
            machine,
            keeper,
            door,
        ) {
            Ok(early) => early,
            Err(Failed) => return ServeEnd::DoorFault,
        };
        match write_all(out, end_line(line, early).as_slice()) {
            Ok(()) => ServeEnd::Done,
            Err(Failed) => ServeEnd::WriteFault,
        }
    }
}
