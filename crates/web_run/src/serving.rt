//! The top call of the program `fixdesk_web`.
ghost use Rattle.std.specs.Prelude.{◌≡◌, map, string_bytes};
ghost use Rattle.fixdesk_run.specs.Serve.{AreSteadyFor, IsServedFaultless};
ghost use Rattle.fixdesk_run.specs.Site.{site};
ghost use Rattle.web_run.specs.Plans.{web_plan};
ghost use Rattle.web_run.specs.Serving.{EndsPages, LeavesPages, TakesAll, front_of, web_usage};

use crate::links::serve_links;
use crate::pages::PageTable;
use crate::plan::web_plan;
use crate::saying::listens_line;
use desk_base::{Failed, NoMemory, Sink, write_all};
use desk_links::Listener;
use fixdesk_run::{Plan, ServeEnd, Service, run_service};
use http_cut::Intake;
use http_desk::{Front, LogLine};
use keeper_core::Keeper;
use machine_core::Machine;
use std::alloc::Global;

/// The line that answers words which are neither a port nor a port and a count.
const USAGE: &[u8] = b"usage: fixdesk_web PORT [COUNT]\n";

/// Serves the links of a door and these pages, as the words say, which are without the program's name: a port, from 1
/// to 65,535, and how many links, from 1 to 1,000,000; without that word as many as a door hands out, which is
/// 4,294,967,295. Answers the exit status (docs/formats.md, *Statuses of `fixdesk_web`*).
///
/// A machine `M` begins over the keeper's tables, the door is bound to the port, and a line is written that says where
/// links are awaited. Then the links are served one after another, each with at most one request, over a front that
/// guards the port and shows the pages, and closed; after each the line of its request is written, where one was
/// answered. All other words are answered with the usage line, with status 1. An output that fails gives 3, a keeper
/// that fails at the beginning 4, want of memory 5, damaged tables a line that names the first damaged row, with
/// status 6, and a door that fails 9. At 1, 4, 5 and 6 the door was not called.
pub fn serve_pages<M: Machine + Drop, K: Keeper, P: PageTable, L: Listener, W: Sink>(
    alloc: Global,
    words: &[String],
    pages: &P,
    keeper: &mut K,
    door: &mut L,
    out: &mut W,
) -> u8
    requires { (L.seen door.old).live ≡ 0 }
    ensures leaves { let site = site W.Sink K.Keeper L.Listener in
        LeavesPages (K.holds keeper.old) (P.listed pages.now) (map string_bytes words.now)
        (site out.old keeper.old door.old) (site out.new keeper.new door.new) result }
    ensures idle { (L.seen door.new).live ≡ 0 }
    ensures complete { let plan = web_plan (map string_bytes words.now) in
        AreSteadyFor (K.is_steady keeper.old) (L.offers door.old) plan → TakesAll (W.takes out.old)
        → IsServedFaultless plan result }
{
    run_service::<M, _, K, L, W>(alloc, &Paging { table: pages }, words, keeper, door, out)
}

/// Links that are served over a front that guards the port and shows the pages of a table, and logged.
#[derive(Drop)]
struct Paging<'p, P> {
    table: &'p P,
}

impl<'p, P: PageTable> Service for Paging<'p, P> {
    ghost usage_line = { λ _. web_usage };

    ghost planned = { λ _. web_plan };

    ghost leaves = { λ service plan. EndsPages (front_of (P.listed service.table.now) plan) plan };

    ghost takes = { λ _ takes _. TakesAll takes };

    fn usage(&self) -> &[u8] {
        USAGE
    }

    fn plan(&self, words: &[String]) -> Option<Plan> {
        web_plan(words)
    }

    fn serve_plan<M: Machine + Drop, K: Keeper, L: Listener, W: Sink>(
        &self,
        alloc: Global,
        plan: Plan,
        machine: &mut M,
        keeper: &mut K,
        door: &mut L,
        out: &mut W,
    ) -> ServeEnd {
        let front = Front::guarded(plan.port, self.table.pages());
        let mut intake = match Intake::new(alloc) {
            Ok(intake) => intake,
            Err(NoMemory) => return ServeEnd::NoMemory,
        };
        let mut log = match LogLine::new(alloc) {
            Ok(log) => log,
            Err(NoMemory) => return ServeEnd::NoMemory,
        };
        let line = match listens_line(alloc, plan.port) {
            Ok(line) => line,
            Err(NoMemory) => return ServeEnd::NoMemory,
        };
        if let Err(Failed) = door.bind(plan.port) {
            return ServeEnd::DoorFault;
        }
        if let Err(Failed) = write_all(out, line.as_slice()) {
            return ServeEnd::WriteFault;
        }
        serve_links(
            &front,
            plan.count,
            &mut intake,
            &mut log,
            machine,
            keeper,
            door,
            out,
        )
    }
}
